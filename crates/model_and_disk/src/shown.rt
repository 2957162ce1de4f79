// Steps and answers as text.
use crate::seen::Seen;
use folder_files::{Answer, FilePath, Place, Step};
use mh_base::{Name, NameList};
use std::alloc::Global;
use std::test::Fail;

/// Of longer bytes their front is shown.
const MOST: usize = 40;

fn push_byte(alloc: Global, line: &mut String, byte: u8) -> Result<(), Fail> {
    if byte.is_ascii_graphic() || byte == b' ' {
        line.push(char::from(byte))?;
    } else {
        line.push_str(format!(in alloc; "\\x{byte:02x}")?.as_str())?;
    }
    Ok(())
}

/// The bytes between quotes, and how many they are.
fn quoted(alloc: Global, bytes: &[u8]) -> Result<String, Fail> {
    let mut line = String::from_str(alloc, "\"")?;
    for byte in bytes.iter().take(MOST) {
        push_byte(alloc, &mut line, *byte)?;
    }
    line.push_str(format!(in alloc; "\" of {}", bytes.len())?.as_str())?;
    Ok(line)
}

/// A name without more.
fn named(alloc: Global, name: &[u8]) -> Result<String, Fail> {
    let mut line = String::new(alloc);
    for byte in name {
        push_byte(alloc, &mut line, *byte)?;
    }
    Ok(line)
}

fn placed(alloc: Global, place: &Place) -> Result<String, Fail> {
    match place {
        Place::Home => Ok(String::from_str(alloc, "~")?),
        Place::Work => Ok(String::from_str(alloc, ".")?),
        Place::Mail(_) => Ok(String::from_str(alloc, "Mail")?),
        Place::Folder(_, name) => {
            let name = name.text().as_str();
            Ok(format!(in alloc; "+{name}")?)
        }
    }
}

fn pathed(alloc: Global, path: &FilePath) -> Result<String, Fail> {
    let text = named(alloc, path.text.as_slice())?;
    let front = if path.home { "~" } else { "." };
    Ok(format!(in alloc; "{front}/{text}")?)
}

fn on_name(alloc: Global, word: &str, place: &Place, name: &Name) -> Result<String, Fail> {
    let place = placed(alloc, place)?;
    let name = named(alloc, name.bytes())?;
    Ok(format!(in alloc; "{word} {place} {name}")?)
}

fn on_names(
    alloc: Global,
    word: &str,
    place: &Place,
    from: &Name,
    to: &Name,
) -> Result<String, Fail> {
    let front = on_name(alloc, word, place, from)?;
    let to = named(alloc, to.bytes())?;
    Ok(format!(in alloc; "{front} {to}")?)
}

fn on_place(alloc: Global, word: &str, place: &Place) -> Result<String, Fail> {
    let place = placed(alloc, place)?;
    Ok(format!(in alloc; "{word} {place}")?)
}

/// A step's word, and behind it what it has beside places, names and paths.
fn with_more(alloc: Global, front: String, more: &str) -> Result<String, Fail> {
    Ok(format!(in alloc; "{front} {more}")?)
}

fn with_number(alloc: Global, front: String, number: u64) -> Result<String, Fail> {
    Ok(format!(in alloc; "{front} {number}")?)
}

fn on_path(alloc: Global, word: &str, path: &FilePath) -> Result<String, Fail> {
    let path = pathed(alloc, path)?;
    Ok(format!(in alloc; "{word} {path}")?)
}

/// What a step is called.
pub fn word_of(step: &Step) -> &'static str {
    match step {
        Step::List(_) => "List",
        Step::Read(_, _, _) => "Read",
        Step::MakeFolder(_) => "MakeFolder",
        Step::Create(_, _, _) => "Create",
        Step::SyncFile(_, _) => "SyncFile",
        Step::SyncFolder(_) => "SyncFolder",
        Step::Link(_, _, _) => "Link",
        Step::Rename(_, _, _) => "Rename",
        Step::Unlink(_, _) => "Unlink",
        Step::Lock(_) => "Lock",
        Step::Unlock(_) => "Unlock",
        Step::ReadFile(_, _) => "ReadFile",
        Step::ReadDrop { .. } => "ReadDrop",
        Step::CutDrop(_, _) => "CutDrop",
    }
}

/// A step as a line.
pub fn step_line(alloc: Global, step: &Step) -> Result<String, Fail> {
    let word = word_of(step);
    match step {
        Step::List(place)
        | Step::MakeFolder(place)
        | Step::SyncFolder(place)
        | Step::Lock(place)
        | Step::Unlock(place) => on_place(alloc, word, place),
        Step::Read(place, name, limit) => {
            with_number(alloc, on_name(alloc, word, place, name)?, *limit)
        }
        Step::Create(place, name, bytes) => {
            let bytes = quoted(alloc, bytes.as_slice())?;
            with_more(alloc, on_name(alloc, word, place, name)?, bytes.as_str())
        }
        Step::SyncFile(place, name) | Step::Unlink(place, name) => {
            on_name(alloc, word, place, name)
        }
        Step::Link(place, from, to) | Step::Rename(place, from, to) => {
            on_names(alloc, word, place, from, to)
        }
        Step::ReadFile(path, number) | Step::CutDrop(path, number) => {
            with_number(alloc, on_path(alloc, word, path)?, *number)
        }
        Step::ReadDrop { path, from, most } => {
            let front = with_number(alloc, on_path(alloc, word, path)?, *from)?;
            with_number(alloc, front, *most)
        }
    }
}

/// What an answer is called.
pub fn answer_word(answer: &Answer) -> &'static str {
    match answer {
        Answer::Done => "Done",
        Answer::Names(_) => "Names",
        Answer::Content(_) => "Content",
        Answer::Piece { .. } => "Piece",
        Answer::Long(_) => "Long",
        Answer::Gone => "Gone",
        Answer::Exists => "Exists",
        Answer::Busy => "Busy",
        Answer::Grown => "Grown",
        Answer::Failed => "Failed",
    }
}

fn names_line(alloc: Global, names: &NameList) -> Result<String, Fail> {
    let mut line = String::from_str(alloc, "Names")?;
    for name in names.as_slice() {
        line.push(' ')?;
        line.push_str(named(alloc, name.bytes())?.as_str())?;
    }
    Ok(line)
}

/// An answer as a line.
pub fn answer_line(alloc: Global, answer: &Answer) -> Result<String, Fail> {
    let word = String::from_str(alloc, answer_word(answer))?;
    match answer {
        Answer::Names(names) => names_line(alloc, names),
        Answer::Content(bytes) => {
            let bytes = quoted(alloc, bytes.as_slice())?;
            with_more(alloc, word, bytes.as_str())
        }
        Answer::Piece { bytes, length } => {
            let bytes = quoted(alloc, bytes.as_slice())?;
            with_number(alloc, with_more(alloc, word, bytes.as_str())?, *length)
        }
        Answer::Long(length) => with_number(alloc, word, *length),
        _ => Ok(word),
    }
}

/// What stands under a name; nothing, where nothing does.
pub fn seen_line(alloc: Global, seen: Option<&Seen>) -> Result<String, Fail> {
    match seen {
        Some(seen) => {
            let directory = seen.directory;
            let name = named(alloc, seen.name.as_slice())?;
            let length = seen.length;
            let bytes = quoted(alloc, seen.bytes.as_slice())?;
            Ok(format!(in alloc; "{directory} {name} of {length} {bytes}")?)
        }
        None => Ok(String::from_str(alloc, "nothing more")?),
    }
}
