// How paths and errors are shown to people: as UTF-8 without control characters.
use crate::fault::HostFault;
use crate::paths::Paths;
use folder_files::{Place, Step};
use mh_base::{Entry, Name, entry_of};
use std::alloc::Global;
use std::io;
use std::io::Write as _;

/// A byte as shells read it in `$'..'`.
fn push_hex(line: &mut String, byte: u8) -> Result<(), HostFault> {
    write!(line, "\\x{byte:02x}")?;
    Ok(())
}

pub(crate) fn push_text(line: &mut String, text: &str) -> Result<(), HostFault> {
    for c in text.chars() {
        if c.is_control() {
            push_hex(line, c as u32 as u8)?;
        } else {
            line.push(c)?;
        }
    }
    Ok(())
}

/// The system's words for an error, without its number.
pub(crate) fn push_error(
    alloc: Global,
    line: &mut String,
    error: &io::Error,
) -> Result<(), HostFault> {
    let text = error.to_string(alloc)?;
    match text.as_str().split_once(" (os error ") {
        Some((words, _)) => push_text(line, words),
        None => push_text(line, text.as_str()),
    }
}

/// A path without the home directory above it.
pub(crate) fn push_path(
    alloc: Global,
    line: &mut String,
    paths: &Paths,
    path: &str,
) -> Result<(), HostFault> {
    let home = paths.place(alloc, &Place::Home)?;
    let below = path
        .strip_prefix(home.as_str())
        .and_then(|rest| rest.strip_prefix('/'));
    push_text(line, below.unwrap_or(path))
}

fn is_held(name: &Name) -> bool {
    matches!(entry_of(name.bytes()), Entry::Held(_, _))
}

/// The path that a step is about. Of a Link it is the new name's, but where a message that was held aside can't come
/// back.
pub(crate) fn step_path(alloc: Global, paths: &Paths, step: &Step) -> Result<String, HostFault> {
    match step {
        Step::List(place)
        | Step::MakeFolder(place)
        | Step::SyncFolder(place)
        | Step::Lock(place)
        | Step::Unlock(place) => paths.place(alloc, place),
        Step::Read(place, name, _)
        | Step::Create(place, name, _)
        | Step::SyncFile(place, name)
        | Step::Unlink(place, name)
        | Step::Rename(place, name, _) => paths.entry(alloc, place, name),
        Step::Link(place, from, to) => {
            paths.entry(alloc, place, if is_held(from) { from } else { to })
        }
        Step::ReadFile(path, _) | Step::CutDrop(path, _) | Step::ReadDrop { path, .. } => {
            paths.file(alloc, path)
        }
    }
}
