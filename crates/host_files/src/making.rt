// Directories that are made.
ghost use Rattle.std.specs.Prelude.{IfOk};
ghost use Rattle.folder_files.specs.Rows.{IsMakeRow};

use crate::fault::{Found, HostFault, after_change, fault, looked_up};
use crate::paths::Paths;
use folder_files::{Answer, Place};
use std::alloc::Global;
use std::fs;
use std::fs::{DirBuilder, File};
use std::io::ErrorKind;
use std::os::unix::fs::DirBuilderExt;

/// How deep a path of missing directories may be.
const DEPTH: u32 = 1024;

/// The directory that holds this path.
fn parent(path: &str) -> Option<&str> {
    match path.rsplit_once('/') {
        Some(("", _)) => Some("/"),
        Some((parent, _)) => Some(parent),
        None => None,
    }
}

/// Makes a directory that was made here safe in the one that holds it.
fn sync_parent(rt: &HostRuntime, path: &str) -> Result<(), HostFault> {
    File::open(rt, parent(path).unwrap_or("."))?.sync_all()?;
    Ok(())
}

/// The same of a directory that was there: who made it before may have died before that. Where the one above may not be
/// read it can't be synced, and who made this one is trusted.
fn sync_old_parent(rt: &HostRuntime, path: &str) -> Result<(), HostFault> {
    match File::open(rt, parent(path).unwrap_or(".")) {
        Ok(above) => Ok(above.sync_all()?),
        Err(error) if error.kind() == ErrorKind::PermissionDenied => Ok(()),
        Err(error) => Err(HostFault::from(error)),
    }
}

/// Mail is its owner's alone.
fn create_directory(rt: &HostRuntime, path: &str) -> Result<Found<()>, HostFault> {
    let mut builder = DirBuilder::new();
    builder.mode(0o700);
    looked_up(builder.create(rt, path))
}

/// A directory below one that is there, made where it is missing, and safe in the one that holds it.
fn make_one(rt: &HostRuntime, path: &str) -> Result<Found<()>, HostFault> {
    let found = create_directory(rt, path)?;
    match found {
        Found::There(()) => after_change(sync_parent(rt, path))?,
        Found::Exists => sync_old_parent(rt, path)?,
        Found::Gone => {}
    }
    Ok(found)
}

fn is_there(rt: &HostRuntime, path: &str) -> Result<bool, HostFault> {
    Ok(matches!(looked_up(fs::metadata(rt, path))?, Found::There(_)))
}

/// A directory and its missing parents. None is made before the one that holds it is safe.
fn make_all(rt: &HostRuntime, path: &str, depth: u32) -> Result<Found<()>, HostFault> {
    if is_there(rt, path)? {
        return make_one(rt, path);
    }
    let Some(above) = parent(path) else {
        return make_one(rt, path);
    };
    if depth == 0 {
        return Err(fault("too many missing directories above it"));
    }
    match make_all(rt, above, depth - 1)? {
        Found::There(()) => after_change(make_one(rt, path)),
        _ => make_one(rt, path),
    }
}

/// Makes the directories above a folder safe in the ones that hold them, up to the mail directory,
/// whose path is so long.
fn sync_above(rt: &HostRuntime, path: &str, mail: usize, depth: u32) -> Result<(), HostFault> {
    match parent(path) {
        Some(above) if above.len() >= mail && depth > 0 => {
            sync_old_parent(rt, above)?;
            sync_above(rt, above, mail, depth - 1)
        }
        _ => Ok(()),
    }
}

pub(crate) fn make_folder(
    rt: &HostRuntime,
    alloc: Global,
    paths: &Paths,
    place: &Place,
) -> Result<Answer, HostFault>
    ensures { IfOk result IsMakeRow }
{
    let path = paths.place(alloc, place)?;
    let mail = paths.mail_length(alloc, place)?;
    let made = make_all(rt, path.as_str(), DEPTH)?;
    after_change(sync_above(rt, path.as_str(), mail, DEPTH))?;
    match made {
        Found::There(()) => Ok(Answer::Done),
        Found::Exists => Ok(Answer::Exists),
        Found::Gone => Err(fault("no directory above it")),
    }
}
