// Small histories of run 7, and the steps that it may make after them. A letter is a step with its
// answer; a history is a word, the oldest step first.
use folder_files::{After, Answer, Event, FilePath, History, Place, Step};
use mh_base::{Bytes, FolderName, Name, Text};
use std::alloc::Global;
use step_discipline::may_step;

const RUN: u128 = 7;

const TEMP: &[u8] = b".mh_temp_00000000000000000000000000000007_0";

const NEXT_TEMP: &[u8] = b".mh_temp_00000000000000000000000000000007_1";

const THEIR_TEMP: &[u8] = b".mh_temp_00000000000000000000000000000009_0";

const HELD: &[u8] = b".mh_held_00000000000000000000000000000007_2";

const THEIR_HELD: &[u8] = b".mh_held_00000000000000000000000000000009_2";

const SEQUENCES: &[u8] = b".mh_sequences";

const MESSAGE: &[u8] = b"S: a\n\nx\n";

const NOTED: &[u8] = b"Note: hi\nS: a\n\nx\n";

const OTHER: &[u8] = b"S: b\n\nx\n";

const DROP: &[u8] = b"From a\nS: a\n\nx\n\nFrom b\nS: b\n\nx\n";

/// The drop's first 10 bytes, and the others.
const FRONT: &[u8] = b"From a\nS: ";

const BACK: &[u8] = b"a\n\nx\n\nFrom b\nS: b\n\nx\n";

/// Two equal messages.
const TWINS: &[u8] = b"From a\nS: a\n\nx\n\nFrom b\nS: a\n\nx\n";

/// A step with its answer; in the drop, from where it is read, or the length that it is cut at.
#[derive(Clone, Copy)]
enum Verb {
    Create,
    SyncFile,
    SyncFolder,
    Link,
    Rename,
    Unlink,
    Read,
    Miss,
    Lock,
    Unlock,
    MakeFolder,
    FailedList,
    ReadDrop(u64),
    CutDrop(u64),
}

#[derive(Clone, Copy)]
enum At {
    Inbox,
    Kept,
    Work,
    Mail,
}

/// A step: its letter, what is done and where, which name, and the second name or the bytes.
type Row = (u8, Verb, At, &'static [u8], &'static [u8]);

const ROWS: &[Row] = &[
    // Files that are made, synced, put and cleared.
    (b'a', Verb::Create, At::Inbox, TEMP, MESSAGE),
    (b'b', Verb::SyncFile, At::Inbox, TEMP, b""),
    (b'c', Verb::Link, At::Inbox, TEMP, b"1"),
    (b'd', Verb::SyncFolder, At::Inbox, b"", b""),
    (b'e', Verb::Unlink, At::Inbox, TEMP, b""),
    (b'w', Verb::Create, At::Inbox, NEXT_TEMP, OTHER),
    (b'x', Verb::SyncFile, At::Inbox, NEXT_TEMP, b""),
    (b'y', Verb::Link, At::Inbox, NEXT_TEMP, b"4"),
    (b'v', Verb::Link, At::Inbox, TEMP, b"4"),
    (b'Z', Verb::Create, At::Inbox, NEXT_TEMP, MESSAGE),
    (b'A', Verb::Create, At::Inbox, b"5", MESSAGE),
    (b'B', Verb::Rename, At::Inbox, TEMP, b"1"),
    (b'F', Verb::Unlink, At::Inbox, THEIR_TEMP, b""),
    (b'G', Verb::Create, At::Inbox, THEIR_TEMP, MESSAGE),
    // Messages that are taken, read, given, dropped and removed, and their copies in `kept`.
    (b'f', Verb::Rename, At::Inbox, b"2", HELD),
    (b'g', Verb::Read, At::Inbox, HELD, MESSAGE),
    (b'h', Verb::Link, At::Inbox, HELD, b"3"),
    (b'i', Verb::Unlink, At::Inbox, HELD, b""),
    (b'j', Verb::Create, At::Kept, NEXT_TEMP, NOTED),
    (b'k', Verb::SyncFile, At::Kept, NEXT_TEMP, b""),
    (b'l', Verb::Link, At::Kept, NEXT_TEMP, b"1"),
    (b'm', Verb::SyncFolder, At::Kept, b"", b""),
    (b'n', Verb::Create, At::Kept, NEXT_TEMP, OTHER),
    (b'C', Verb::Rename, At::Inbox, b"2", b",2"),
    (b'D', Verb::Unlink, At::Inbox, b"2", b""),
    (b'E', Verb::Rename, At::Inbox, b"2", b",3"),
    (b'H', Verb::Link, At::Inbox, THEIR_HELD, b"3"),
    // Locks, commits, folders, and files of the current directory.
    (b'o', Verb::Lock, At::Inbox, b"", b""),
    (b'p', Verb::Unlock, At::Inbox, b"", b""),
    (b'q', Verb::Miss, At::Inbox, SEQUENCES, b""),
    (b'Q', Verb::Read, At::Inbox, SEQUENCES, b""),
    (b'r', Verb::Rename, At::Inbox, TEMP, SEQUENCES),
    (b'z', Verb::FailedList, At::Inbox, b"", b""),
    (b'I', Verb::MakeFolder, At::Kept, b"", b""),
    (b'J', Verb::Rename, At::Work, b"draft", b",draft.orig"),
    (b'K', Verb::Rename, At::Work, b"draft", b",draft.bak"),
    (b'L', Verb::Create, At::Work, TEMP, MESSAGE),
    (b'M', Verb::SyncFile, At::Work, TEMP, b""),
    (b'N', Verb::Link, At::Work, TEMP, b"out"),
    (b'O', Verb::Rename, At::Work, TEMP, b"out"),
    (b'P', Verb::Link, At::Work, TEMP, b"1"),
    (b'U', Verb::Lock, At::Mail, b"", b""),
    (b'V', Verb::Miss, At::Mail, b"context", b""),
    (b'W', Verb::Create, At::Mail, TEMP, MESSAGE),
    (b'X', Verb::SyncFile, At::Mail, TEMP, b""),
    (b'Y', Verb::Rename, At::Mail, TEMP, b"context"),
    // The drop is read whole, or in two pieces, and cut.
    (b's', Verb::ReadDrop(0), At::Work, b"", DROP),
    (b'R', Verb::ReadDrop(0), At::Work, b"", FRONT),
    (b'S', Verb::ReadDrop(10), At::Work, b"", BACK),
    (b'T', Verb::ReadDrop(0), At::Work, b"", TWINS),
    (b't', Verb::CutDrop(31), At::Work, b"", b""),
    (b'u', Verb::CutDrop(32), At::Work, b"", b""),
];

fn row_of(letter: u8) -> Option<Row> {
    for row in ROWS {
        if row.0 == letter {
            return Some(*row);
        }
    }
    None
}

fn folder(alloc: Global, name: &str) -> Option<Place> {
    let word = Text::from_str(alloc, name).ok()?;
    let name = FolderName::read(alloc, &word).ok()?;
    Some(Place::Folder(Bytes::from_slice(alloc, b"Mail").ok()?, name))
}

fn place(alloc: Global, at: At) -> Option<Place> {
    match at {
        At::Inbox => folder(alloc, "inbox"),
        At::Kept => folder(alloc, "kept"),
        At::Work => Some(Place::Work),
        At::Mail => Some(Place::Mail(Bytes::from_slice(alloc, b"Mail").ok()?)),
    }
}

fn name(alloc: Global, bytes: &[u8]) -> Option<Name> {
    Name::new(Bytes::from_slice(alloc, bytes).ok()?)
}

fn path(alloc: Global) -> Option<FilePath> {
    let text = Bytes::from_slice(alloc, b"drop").ok()?;
    Some(FilePath { home: true, text })
}

/// A step on two names.
fn moving_step(verb: Verb, place: Place, first: Name, second: Name) -> Step {
    match verb {
        Verb::Link => Step::Link(place, first, second),
        _ => Step::Rename(place, first, second),
    }
}

/// A step on a name, which makes, syncs, unlinks or reads a file.
fn name_step(verb: Verb, place: Place, name: Name, bytes: Bytes) -> Step {
    match verb {
        Verb::Create => Step::Create(place, name, bytes),
        Verb::SyncFile => Step::SyncFile(place, name),
        Verb::Unlink => Step::Unlink(place, name),
        _ => Step::Read(place, name, 100),
    }
}

/// A step on a directory.
fn place_step(verb: Verb, place: Place) -> Step {
    match verb {
        Verb::SyncFolder => Step::SyncFolder(place),
        Verb::Lock => Step::Lock(place),
        Verb::Unlock => Step::Unlock(place),
        Verb::MakeFolder => Step::MakeFolder(place),
        _ => Step::List(place),
    }
}

fn moved(alloc: Global, row: Row) -> Option<Step> {
    let first = name(alloc, row.3)?;
    let second = name(alloc, row.4)?;
    Some(moving_step(row.1, place(alloc, row.2)?, first, second))
}

fn named(alloc: Global, row: Row) -> Option<Step> {
    let name = name(alloc, row.3)?;
    let bytes = Bytes::from_slice(alloc, row.4).ok()?;
    Some(name_step(row.1, place(alloc, row.2)?, name, bytes))
}

fn placed(alloc: Global, row: Row) -> Option<Step> {
    Some(place_step(row.1, place(alloc, row.2)?))
}

fn read_drop(alloc: Global, from: u64) -> Option<Step> {
    Some(Step::ReadDrop {
        path: path(alloc)?,
        from,
        most: 100,
    })
}

fn cut_drop(alloc: Global, length: u64) -> Option<Step> {
    Some(Step::CutDrop(path(alloc)?, length))
}

fn step(alloc: Global, row: Row) -> Option<Step> {
    match row.1 {
        Verb::Link | Verb::Rename => moved(alloc, row),
        Verb::Create | Verb::SyncFile | Verb::Unlink | Verb::Read | Verb::Miss => {
            named(alloc, row)
        }
        Verb::ReadDrop(from) => read_drop(alloc, from),
        Verb::CutDrop(length) => cut_drop(alloc, length),
        _ => placed(alloc, row),
    }
}

fn answer(verb: Verb, bytes: Bytes) -> Answer {
    match verb {
        Verb::Read => Answer::Content(bytes),
        Verb::Miss => Answer::Gone,
        Verb::FailedList => Answer::Failed,
        Verb::ReadDrop(_) => Answer::Piece { bytes, length: 31 },
        _ => Answer::Done,
    }
}

fn made(run: u128, step: Step, answer: Answer) -> Event {
    Event::Act {
        run,
        step,
        answer,
        after: After::Made,
    }
}

fn event(alloc: Global, run: u128, row: Row) -> Option<Event> {
    let bytes = Bytes::from_slice(alloc, row.4).ok()?;
    Some(made(run, step(alloc, row)?, answer(row.1, bytes)))
}

fn history(alloc: Global, run: u128, letters: &str) -> Option<History> {
    let mut events = History::new(alloc);
    for letter in letters.as_bytes() {
        events.push(event(alloc, run, row_of(*letter)?)?).ok()?;
    }
    Some(events)
}

/// Whether run 7 may make this event's step after these events.
fn may(alloc: Global, events: &History, next: &Event) -> Option<bool> {
    match next {
        Event::Act { step, .. } => may_step(alloc, events, RUN, step).ok(),
        _ => None,
    }
}

/// Whether run 7 may make the step after what another run, or it itself, has made. The step stands in a history of its
/// own, since a list is dropped by one look, whatever its steps are.
fn verdict(alloc: Global, run: u128, past: &str, next: &str) -> Option<bool> {
    let events = history(alloc, run, past)?;
    let next = history(alloc, RUN, next)?;
    may(alloc, &events, next.get(0)?)
}

/// The run, the steps that it has made, the next one of run 7, and whether run 7 may make it.
type Case = (u128, &'static str, &'static str, bool);

const CASES: &[Case] = &[
    // Looks and folders.
    (RUN, "z", "d", true),
    (RUN, "z", "o", true),
    (RUN, "z", "s", true),
    (RUN, "", "I", true),
    (RUN, "z", "I", false),
    // Creates.
    (RUN, "", "a", true),
    (RUN, "L", "a", true),
    (RUN, "a", "a", false),
    (RUN, "", "A", false),
    (RUN, "", "G", false),
    (RUN, "z", "a", false),
    // Puts.
    (RUN, "ab", "c", true),
    (RUN, "a", "c", false),
    (RUN, "ba", "c", false),
    (RUN, "abz", "c", false),
    (RUN, "ab", "B", false),
    // Gives, takes and removes.
    (RUN, "f", "h", true),
    (RUN, "", "H", true),
    (RUN, "", "f", true),
    (RUN, "f", "f", false),
    (RUN, "", "C", true),
    (RUN, "", "D", true),
    (RUN, "", "E", false),
    // Drops.
    (RUN, "fhd", "i", true),
    (RUN, "fh", "i", false),
    (RUN, "fdh", "i", false),
    (RUN, "fhm", "i", false),
    // Discards.
    (RUN, "fgjklm", "i", true),
    (RUN, "fgjkl", "i", false),
    (RUN, "fgjkml", "i", false),
    (RUN, "fgnklm", "i", false),
    (RUN, "fjgklm", "i", false),
    (RUN, "gjklm", "i", false),
    (RUN, "fgjklmg", "i", false),
    (RUN, "fg", "i", false),
    // Commits.
    (RUN, "oqab", "r", true),
    (RUN, "oQab", "r", true),
    (RUN, "qab", "r", false),
    (RUN, "qoab", "r", false),
    (RUN, "oqabp", "r", false),
    (RUN, "oqa", "r", false),
    (RUN, "UVWX", "Y", true),
    (RUN, "VWX", "Y", false),
    // Clears.
    (RUN, "", "e", true),
    (RUN, "", "F", true),
    (RUN, "", "i", false),
    // Cuts.
    (RUN, "sabcwxyd", "t", true),
    (RUN, "RSabcwxyd", "t", true),
    (RUN, "sabcwxyd", "u", false),
    (RUN, "sabcd", "t", false),
    (RUN, "sabcdwxy", "t", false),
    (RUN, "swxyabcd", "t", false),
    (RUN, "abcwxyds", "t", false),
    (RUN, "Rabcwxyd", "t", false),
    (RUN, "TabcZxyd", "t", true),
    (RUN, "Tabcvd", "t", false),
    // Files of the current directory.
    (RUN, "LM", "N", true),
    (RUN, "LM", "O", true),
    (RUN, "L", "N", false),
    (RUN, "LM", "P", false),
    (RUN, "", "J", true),
    (RUN, "", "K", false),
    // After steps of another run.
    (9, "ab", "c", false),
    (9, "z", "a", true),
];

/// The first case that is not answered so.
fn wrong_case(alloc: Global) -> Option<Case> {
    for (run, past, next, may) in CASES {
        if verdict(alloc, *run, past, next) != Some(*may) {
            return Some((*run, past, next, *may));
        }
    }
    None
}

#[test]
fn steps_that_may_be_made(rt: HostRuntime) {
    assert_eq!(rt; wrong_case(rt.alloc()), None);
}
