// Every step on real directories, asked for as commands ask for it. A history is a table: the run, where, what is
// asked for, and whether it is done or is as the row says.
use file_plans::{
    DropCut, DropPiece, Entered, FolderMade, Listing, Locking, Reading, Stop, Touched, ask,
    ask_create, ask_cut_drop, ask_link, ask_list, ask_lock, ask_make_folder, ask_read,
    ask_read_drop, ask_read_file, ask_rename, ask_sync_file, ask_sync_folder, ask_unlink,
    ask_unlock, attempt, attempt_unlock, hear, say,
};
use folder_files::{Answer, FilePath, Files, Place, Step};
use host_files::HostFiles;
use mh_base::{Bytes, FolderName, Name, NameList, PlainSink, PlainSource, Text};
use std::alloc::{AllocError, Global};
use std::fs;
use std::fs::File;
use std::io::Read;
use std::test::Fail;

/// The runs of the two terminals.
pub const ONE: u128 = 1;

pub const TWO: u128 = 2;

#[derive(Clone, Copy)]
pub enum At {
    Home,
    /// `inbox` of `Mail`, by a path with more slashes, and its subfolder `7`.
    Inbox,
    OddInbox,
    Seven,
    /// `inbox/deep` of `Mail/a`.
    Deep,
    /// A directory of the system.
    System,
}

#[derive(Clone, Copy)]
pub enum Deed {
    Lock,
    Unlock,
    AttemptUnlock,
    Make,
    /// The directory is not answered for.
    MakeFails,
    SyncFolder,
    /// The directory has this name alone.
    Has(&'static [u8]),
    Create(&'static [u8]),
    SyncFile(&'static [u8]),
    Link(&'static [u8], &'static [u8]),
    Rename(&'static [u8], &'static [u8]),
    Unlink(&'static [u8]),
    /// A file of 11 bytes is read, or is longer than these.
    Read(&'static [u8], u64),
    /// There is no such name in the home directory.
    AskGone(&'static [u8]),
    AttemptGone(&'static [u8]),
    /// A link of the first name to the second one finds that there.
    Taken(&'static [u8], &'static [u8]),
    /// The drop of 7 bytes has these from its fifth on.
    Piece(&'static [u8]),
    Empty,
    Cut(u64),
    /// A file can't be read.
    Fails(&'static [u8]),
}

pub type Row = (u128, At, Deed, bool);

fn folder(alloc: Global, mail: &[u8], word: &str) -> Option<Place> {
    let word = Text::from_str(alloc, word).ok()?;
    let name = FolderName::read(alloc, &word).ok()?;
    Some(Place::Folder(Bytes::from_slice(alloc, mail).ok()?, name))
}

fn place(alloc: Global, at: At) -> Option<Place> {
    match at {
        At::Home => Some(Place::Home),
        At::Inbox => folder(alloc, b"Mail", "inbox"),
        At::OddInbox => folder(alloc, b".//Mail//", "inbox"),
        At::Seven => folder(alloc, b"Mail", "inbox/7"),
        At::Deep => folder(alloc, b"Mail/a", "+inbox/deep"),
        At::System => folder(alloc, b"/proc/self", "fd"),
    }
}

fn name(alloc: Global, bytes: &[u8]) -> Option<Name> {
    Name::new(Bytes::from_slice(alloc, bytes).ok()?)
}

fn path(alloc: Global, bytes: &[u8]) -> Option<FilePath> {
    let text = Bytes::from_slice(alloc, bytes).ok()?;
    Some(FilePath { home: true, text })
}

fn is_entered(answer: Result<Entered, Stop>) -> Option<bool> {
    Some(matches!(answer.ok()?, Entered::Done))
}

fn is_touched(answer: Result<Touched, Stop>) -> Option<bool> {
    Some(matches!(answer.ok()?, Touched::Done))
}

fn is_locked(answer: Result<Locking, Stop>) -> Option<bool> {
    Some(matches!(answer.ok()?, Locking::Done))
}

fn is_made(answer: Result<FolderMade, Stop>) -> Option<bool> {
    Some(matches!(answer.ok()?, FolderMade::Done))
}

fn is_cut(answer: Result<DropCut, Stop>) -> Option<bool> {
    Some(matches!(answer.ok()?, DropCut::Done))
}

fn is_gone(answer: Result<Answer, Stop>) -> Option<bool> {
    Some(matches!(answer.ok()?, Answer::Gone))
}

fn is_taken(answer: Result<Answer, Stop>) -> Option<bool> {
    Some(matches!(answer.ok()?, Answer::Exists))
}

fn is_alone(names: &NameList, wanted: &[u8]) -> bool {
    names.len() == 1 && names.get(0).is_some_and(|name| name.bytes() == wanted)
}

fn has(answer: Result<Listing, Stop>, wanted: &[u8]) -> Option<bool> {
    match answer {
        Ok(Listing::Names(names)) => Some(is_alone(&names, wanted)),
        Ok(Listing::Gone) => Some(false),
        Err(_) => None,
    }
}

const TEXT: &[u8] = b"Subject: x\n";

/// Whether the file of 11 bytes is read, or is too long.
fn is_read(answer: Result<Reading, Stop>, limit: u64) -> Option<bool> {
    match answer {
        Ok(Reading::Content(bytes)) => Some(bytes.as_slice() == TEXT),
        Ok(Reading::Long(length)) => Some(length == 11 && limit < 11),
        Ok(Reading::Gone) => Some(false),
        Err(_) => None,
    }
}

fn is_empty(answer: Result<Reading, Stop>) -> Option<bool> {
    match answer {
        Ok(Reading::Content(bytes)) => Some(bytes.len() == 0),
        Ok(_) => Some(false),
        Err(_) => None,
    }
}

fn is_piece(answer: Result<DropPiece, Stop>, piece: &[u8]) -> Option<bool> {
    match answer {
        Ok(DropPiece::Piece { bytes, length }) => Some(bytes.as_slice() == piece && length == 7),
        Ok(DropPiece::Gone) => Some(false),
        Err(_) => None,
    }
}

/// A step on a name.
fn named<F: Files>(
    alloc: Global,
    run: u128,
    files: &mut F,
    place: &Place,
    bytes: &[u8],
    deed: Deed,
) -> Option<bool> {
    let name = name(alloc, bytes)?;
    match deed {
        Deed::SyncFile(_) => is_touched(ask_sync_file(alloc, run, files, place, &name)),
        Deed::Read(_, limit) => is_read(ask_read(alloc, run, files, place, &name, limit), limit),
        _ => is_touched(ask_unlink(alloc, run, files, place, &name)),
    }
}

/// Whether a file is made of bytes that stay as they are.
fn created<F: Files>(
    alloc: Global,
    run: u128,
    files: &mut F,
    place: &Place,
    bytes: &[u8],
) -> Option<bool> {
    let name = name(alloc, bytes)?;
    let mut text = Bytes::from_slice(alloc, TEXT).ok()?;
    let answer = ask_create(alloc, run, files, place, &name, &mut text);
    if text.as_slice() == TEXT {
        is_entered(answer)
    } else {
        None
    }
}

fn linked<F: Files>(
    alloc: Global,
    run: u128,
    files: &mut F,
    place: &Place,
    from: &[u8],
    to: &[u8],
) -> Option<bool> {
    let from = name(alloc, from)?;
    let to = name(alloc, to)?;
    is_entered(ask_link(alloc, run, files, place, &from, &to))
}

fn renamed<F: Files>(
    alloc: Global,
    run: u128,
    files: &mut F,
    place: &Place,
    from: &[u8],
    to: &[u8],
) -> Option<bool> {
    let from = name(alloc, from)?;
    let to = name(alloc, to)?;
    is_touched(ask_rename(alloc, run, files, place, &from, &to))
}

fn home_unlink(alloc: Global, bytes: &[u8]) -> Option<Step> {
    Some(Step::Unlink(Place::Home, name(alloc, bytes)?))
}

fn inbox_link(alloc: Global, from: &[u8], to: &[u8]) -> Option<Step> {
    let from = name(alloc, from)?;
    let to = name(alloc, to)?;
    Some(Step::Link(folder(alloc, b"Mail", "inbox")?, from, to))
}

/// A step that is asked for as it is.
fn asked<F: Files>(alloc: Global, run: u128, files: &mut F, deed: Deed) -> Option<bool> {
    match deed {
        Deed::AskGone(name) => is_gone(ask(alloc, run, files, home_unlink(alloc, name)?)),
        Deed::AttemptGone(name) => is_gone(attempt(alloc, run, files, home_unlink(alloc, name)?)),
        Deed::Taken(from, to) => is_taken(ask(alloc, run, files, inbox_link(alloc, from, to)?)),
        _ => None,
    }
}

/// A step on a file outside.
fn outside<F: Files>(
    alloc: Global,
    run: u128,
    files: &mut F,
    path: &FilePath,
    deed: Deed,
) -> Option<bool> {
    match deed {
        Deed::Piece(bytes) => is_piece(ask_read_drop(alloc, run, files, path, 5, 4), bytes),
        Deed::Empty => is_empty(ask_read_file(alloc, run, files, path, 9)),
        Deed::Cut(length) => is_cut(ask_cut_drop(alloc, run, files, path, length)),
        Deed::Fails(_) => Some(ask_read_file(alloc, run, files, path, 9).is_err()),
        _ => None,
    }
}

/// A step on a directory.
fn placed<F: Files>(
    alloc: Global,
    run: u128,
    files: &mut F,
    place: &Place,
    deed: Deed,
) -> Option<bool> {
    match deed {
        Deed::Lock => is_locked(ask_lock(alloc, run, files, place)),
        Deed::Unlock => Some(ask_unlock(alloc, run, files, place).is_ok()),
        Deed::AttemptUnlock => Some(attempt_unlock(alloc, run, files, place).is_ok()),
        Deed::Make => is_made(ask_make_folder(alloc, run, files, place)),
        Deed::MakeFails => Some(ask_make_folder(alloc, run, files, place).is_err()),
        Deed::SyncFolder => is_touched(ask_sync_folder(alloc, run, files, place)),
        Deed::Has(name) => has(ask_list(alloc, run, files, place), name),
        _ => None,
    }
}

fn done_at<F: Files>(
    alloc: Global,
    run: u128,
    files: &mut F,
    place: &Place,
    deed: Deed,
) -> Option<bool> {
    match deed {
        Deed::Create(name) => created(alloc, run, files, place, name),
        Deed::SyncFile(name) | Deed::Unlink(name) | Deed::Read(name, _) => {
            named(alloc, run, files, place, name, deed)
        }
        Deed::Link(from, to) => linked(alloc, run, files, place, from, to),
        Deed::Rename(from, to) => renamed(alloc, run, files, place, from, to),
        _ => placed(alloc, run, files, place, deed),
    }
}

fn done_outside<F: Files>(
    alloc: Global,
    run: u128,
    files: &mut F,
    bytes: &[u8],
    deed: Deed,
) -> Option<bool> {
    let path = path(alloc, bytes)?;
    outside(alloc, run, files, &path, deed)
}

fn done_there<F: Files>(
    alloc: Global,
    run: u128,
    files: &mut F,
    at: At,
    deed: Deed,
) -> Option<bool> {
    let place = place(alloc, at)?;
    done_at(alloc, run, files, &place, deed)
}

/// Whether it is done, or is so. A fault is none.
fn done<F: Files>(alloc: Global, run: u128, files: &mut F, at: At, deed: Deed) -> Option<bool> {
    match deed {
        Deed::AskGone(_) | Deed::AttemptGone(_) | Deed::Taken(_, _) => {
            asked(alloc, run, files, deed)
        }
        Deed::Piece(_) | Deed::Empty | Deed::Cut(_) => {
            done_outside(alloc, run, files, b"drop", deed)
        }
        Deed::Fails(path) => done_outside(alloc, run, files, path, deed),
        _ => done_there(alloc, run, files, at, deed),
    }
}

/// The same at the run's own terminal.
fn done_by<F: Files>(
    alloc: Global,
    terminals: &mut [F],
    run: u128,
    at: At,
    deed: Deed,
) -> Option<bool> {
    let terminal = if run == ONE { 0 } else { 1 };
    match terminals.get_mut(terminal) {
        Some(files) => done(alloc, run, files, at, deed),
        None => None,
    }
}

/// The place of the first row that isn't so.
fn wrong_row<F: Files>(alloc: Global, terminals: &mut [F], rows: &[Row]) -> Option<usize> {
    for (place, (run, at, deed, wanted)) in rows.iter().enumerate() {
        if done_by(alloc, terminals, *run, *at, *deed) != Some(*wanted) {
            return Some(place);
        }
    }
    None
}

fn any_number(rt: &HostRuntime) -> Result<u64, Fail> {
    let mut random = [0u8; 8];
    File::open(rt, "/dev/urandom")?.read_exact(&mut random)?;
    Ok(u64::from_le_bytes(random))
}

/// A directory that no other test has.
fn new_home(rt: &HostRuntime) -> Result<String, Fail> {
    let home = format!(in rt.alloc(); "/tmp/mh_tools_test_{}", any_number(rt)?)?;
    fs::create_dir(rt, home.as_str())?;
    Ok(home)
}

fn open(rt: &HostRuntime, home: &str) -> Result<HostFiles, Fail> {
    let home = Bytes::from_slice(rt.alloc(), home.as_bytes())?;
    Ok(HostFiles::open(rt.clone()?, rt.alloc(), home)?)
}

/// The files of two terminals.
fn terminals(rt: &HostRuntime, home: &str) -> Result<Vec<HostFiles>, Fail> {
    let mut terminals = Vec::new(rt.alloc());
    for _ in 0..2 {
        terminals.push(open(rt, home)?)?;
    }
    Ok(terminals)
}

fn wrong_there(rt: &HostRuntime, home: &str, rows: &[Row]) -> Result<Option<usize>, Fail> {
    let mut terminals = terminals(rt, home)?;
    Ok(wrong_row(rt.alloc(), terminals.as_mut_slice(), rows))
}

/// The place of the first row that isn't so in a new home directory.
pub fn wrong(rt: &HostRuntime, rows: &[Row]) -> Result<Option<usize>, Fail> {
    let home = new_home(rt)?;
    let wrong = wrong_there(rt, home.as_str(), rows)?;
    fs::remove_dir_all(rt, home.as_str())?;
    Ok(wrong)
}

const CHANGES: &[Row] = &[
    // No directory, then one.
    (ONE, At::Deep, Deed::Lock, false),
    (ONE, At::Deep, Deed::Make, true),
    (ONE, At::Deep, Deed::Make, false),
    (ONE, At::Deep, Deed::SyncFolder, true),
    // A message, then a second name of it, and then that name alone.
    (ONE, At::Deep, Deed::Create(b"1"), true),
    (ONE, At::Deep, Deed::Create(b"1"), false),
    (ONE, At::Deep, Deed::SyncFile(b"1"), true),
    (ONE, At::Deep, Deed::Link(b"1", b"2"), true),
    (ONE, At::Deep, Deed::Link(b"1", b"2"), false),
    (ONE, At::Deep, Deed::Unlink(b"1"), true),
    (ONE, At::Deep, Deed::Unlink(b"1"), false),
    (ONE, At::Deep, Deed::Has(b"2"), true),
    // Another name.
    (ONE, At::Deep, Deed::Rename(b"2", b"3"), true),
    (ONE, At::Deep, Deed::Rename(b"2", b"3"), false),
    (ONE, At::Deep, Deed::Read(b"3", 11), true),
    (ONE, At::Deep, Deed::Read(b"3", 10), true),
    (ONE, At::Home, Deed::AskGone(b"4"), true),
    (ONE, At::Home, Deed::AttemptGone(b"4"), true),
];

#[test]
fn changes_of_a_folder(rt: HostRuntime) -> Result<(), Fail> {
    assert_eq!(rt; wrong(&rt, CHANGES)?, None);
    Ok(())
}

/// Two terminals and one lock.
const LOCKS: &[Row] = &[
    (ONE, At::Home, Deed::Lock, true),
    (TWO, At::Home, Deed::Lock, false),
    (ONE, At::Home, Deed::Unlock, true),
    (TWO, At::Home, Deed::Lock, true),
    (TWO, At::Home, Deed::AttemptUnlock, true),
    (ONE, At::Home, Deed::Lock, true),
    (ONE, At::Home, Deed::Has(b".mh_lock"), true),
];

#[test]
fn one_lock(rt: HostRuntime) -> Result<(), Fail> {
    assert_eq!(rt; wrong(&rt, LOCKS)?, None);
    Ok(())
}

fn write_drop(rt: &HostRuntime, home: &str) -> Result<(), Fail> {
    let path = format!(in rt.alloc(); "{home}/drop")?;
    fs::write(rt, path.as_str(), b"From a\n")?;
    Ok(())
}

const NO_DROP: &[Row] = &[(ONE, At::Home, Deed::Cut(7), false)];

/// A drop of 7 bytes is read and cut to nothing.
const DROP: &[Row] = &[
    (ONE, At::Home, Deed::Piece(b"a\n"), true),
    (ONE, At::Home, Deed::Empty, false),
    (ONE, At::Home, Deed::Cut(6), false),
    (ONE, At::Home, Deed::Cut(7), true),
    (ONE, At::Home, Deed::Empty, true),
];

#[test]
fn no_drop(rt: HostRuntime) -> Result<(), Fail> {
    assert_eq!(rt; wrong(&rt, NO_DROP)?, None);
    Ok(())
}

fn wrong_of_drop(rt: &HostRuntime, home: &str) -> Result<Option<usize>, Fail> {
    write_drop(rt, home)?;
    wrong_there(rt, home, DROP)
}

#[test]
fn a_drop(rt: HostRuntime) -> Result<(), Fail> {
    let home = new_home(&rt)?;
    assert_eq!(rt; wrong_of_drop(&rt, home.as_str())?, None);
    fs::remove_dir_all(&rt, home.as_str())?;
    Ok(())
}

fn says(alloc: Global) -> bool {
    let mut out = PlainSink::new(alloc);
    say(&mut out, b"ab").is_ok() && out.bytes() == b"ab".as_slice()
}

fn hears(alloc: Global) -> Result<bool, AllocError> {
    let mut input = PlainSource::new(Bytes::from_slice(alloc, b"abc")?);
    match hear(alloc, &mut input, 2) {
        Ok(heard) => Ok(heard.as_slice() == b"ab".as_slice()),
        Err(_) => Ok(false),
    }
}

#[test]
fn saying_and_hearing(rt: HostRuntime) {
    assert!(rt; says(rt.alloc()));
    assert!(rt; hears(rt.alloc()) == Ok(true));
}
