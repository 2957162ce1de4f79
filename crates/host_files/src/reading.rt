// Steps that look.
ghost use Rattle.std.specs.Prelude.{IfOk, length as count, ◌≤◌};
ghost use Rattle.folder_files.specs.Rows.{IsNamesRow, IsReadRow};

use crate::fault::{Found, HostFault, fault, looked_up, must_be_there};
use crate::listed::{LastListing, ListedPath};
use crate::paths::Paths;
use crate::room::ReadRoom;
use folder_files::{Answer, FilePath, Place};
use mh_base::{Bytes, Name};
use std::alloc::Global;
use std::fs;
use std::fs::File;
use std::io::{Read, Seek, SeekFrom};

pub(crate) fn list(
    rt: &HostRuntime,
    alloc: Global,
    paths: &Paths,
    last: &mut LastListing,
    place: &Place,
) -> Result<Answer, HostFault>
    ensures { IfOk result IsNamesRow }
{
    match LastListing::read(rt, alloc, paths, place)? {
        Found::There(listed) => {
            *last = listed.listing;
            Ok(Answer::Names(listed.names))
        }
        _ => Ok(Answer::Gone),
    }
}

/// How long a plain file is. What is a directory, a pipe, a socket or a device is a fault before it is
/// opened, since opening a pipe waits for who writes to it.
fn plain_length(rt: &HostRuntime, path: &str) -> Result<Found<u64>, HostFault> {
    match looked_up(fs::metadata(rt, path))? {
        Found::There(what) if what.is_file() => Ok(Found::There(what.len())),
        Found::Gone => Ok(Found::Gone),
        _ => Err(fault("no plain file")),
    }
}

/// A plain file that is there, and its length, which a listing may have told.
fn open_plain(
    rt: &HostRuntime,
    path: &str,
    listed: Option<u64>,
) -> Result<Found<(File, u64)>, HostFault> {
    let length = match listed {
        Some(length) => length,
        None => match plain_length(rt, path)? {
            Found::Gone => return Ok(Found::Gone),
            found => must_be_there(found)?,
        },
    };
    match looked_up(File::open(rt, path))? {
        Found::Gone => Ok(Found::Gone),
        found => Ok(Found::There((must_be_there(found)?, length))),
    }
}

/// At most so many bytes of an open file, from its present place on.
fn read_most(
    alloc: Global,
    room: &mut ReadRoom,
    file: File,
    likely: u64,
    most: u64,
) -> Result<Bytes, HostFault> {
    let mut file = file.take(most);
    let front = room.front(&mut file, likely)?;
    let mut bytes = Vec::with_capacity(alloc, front.bytes.len().max(likely as usize))?;
    bytes.extend_from_slice(front.bytes)?;
    if !front.ends {
        file.read_to_end(&mut bytes)?;
    }
    Ok(Bytes::from_vec(bytes))
}

/// A file's bytes, unless there are more than the limit; of a file that grows, no more than one
/// byte beyond it is read.
fn read_within(
    rt: &HostRuntime,
    alloc: Global,
    room: &mut ReadRoom,
    path: &str,
    listed: Option<u64>,
    limit: u64,
) -> Result<Answer, HostFault>
    ensures { IfOk result IsReadRow }
{
    let (file, length) = match open_plain(rt, path, listed)? {
        Found::Gone => return Ok(Answer::Gone),
        found => must_be_there(found)?,
    };
    if length > limit {
        return Ok(Answer::Long(length));
    }
    let bytes = read_most(alloc, room, file, length, limit.saturating_add(1))?;
    let length = bytes.len() as u64;
    if length > limit {
        return Ok(Answer::Long(length));
    }
    Ok(Answer::Content(bytes))
}

pub(crate) fn read(
    rt: &HostRuntime,
    alloc: Global,
    paths: &Paths,
    room: &mut ReadRoom,
    last: &LastListing,
    place: &Place,
    name: &Name,
    limit: u64,
) -> Result<Answer, HostFault>
    ensures { IfOk result IsReadRow }
{
    let ListedPath { path, length } = last.path(alloc, paths, place, name)?;
    let listed = length.filter(|length| *length <= limit);
    match read_within(rt, alloc, room, path.as_str(), listed, limit)? {
        // The listed length is an old one: how long the file is now is asked for.
        Answer::Long(_) if listed.is_some() => {
            read_within(rt, alloc, room, path.as_str(), None, limit)
        }
        answer => Ok(answer),
    }
}

pub(crate) fn read_file(
    rt: &HostRuntime,
    alloc: Global,
    paths: &Paths,
    room: &mut ReadRoom,
    path: &FilePath,
    limit: u64,
) -> Result<Answer, HostFault>
    ensures { IfOk result IsReadRow }
{
    let path = paths.file(alloc, path)?;
    read_within(rt, alloc, room, path.as_str(), None, limit)
}

/// A piece of an open file of this length, and nothing of what was written behind it since.
pub(crate) fn read_piece(
    alloc: Global,
    room: &mut ReadRoom,
    mut file: File,
    from: u64,
    most: u64,
    length: u64,
) -> Result<Bytes, HostFault>
    ensures { IfOk result (λ piece. count piece ≤ most) }
{
    let wanted = most.min(length.saturating_sub(from));
    file.seek(SeekFrom::Start(from))?;
    let piece = read_most(alloc, room, file, wanted, wanted)?;
    if piece.len() as u64 > wanted {
        return Err(fault("more was read than there is"));
    }
    Ok(piece)
}
