// Files that are made, and syncs.
ghost use Rattle.std.specs.Prelude.{IfOk};
ghost use Rattle.folder_files.specs.Rows.{IsNewRow, IsOldRow};

use crate::fault::{Found, HostFault, changed, fault, looked_up, must_be_there};
use crate::kept::Kept;
use crate::new_file::create_new;
use crate::paths::Paths;
use folder_files::{Answer, Place};
use mh_base::{Bytes, Name};
use std::alloc::Global;
use std::fs;
use std::fs::File;
use std::io::Write;

/// Makes a file, which stays open for its sync.
pub(crate) fn create(
    rt: &HostRuntime,
    alloc: Global,
    paths: &Paths,
    made: &mut Option<Kept>,
    place: &Place,
    name: &Name,
    bytes: &Bytes,
) -> Result<Answer, HostFault>
    ensures { IfOk result IsNewRow }
{
    let path = paths.entry(alloc, place, name)?;
    match looked_up(create_new(rt, path.as_str()))? {
        Found::There(mut file) => {
            changed(file.write_all(bytes.as_slice()))?;
            *made = Kept::new(path, file).ok();
            Ok(Answer::Done)
        }
        Found::Exists => Ok(Answer::Exists),
        Found::Gone => Ok(Answer::Gone),
    }
}

/// Opens a file or a directory and makes it safe; opening a pipe would wait.
pub(crate) fn sync_path(rt: &HostRuntime, path: &str) -> Result<Found<File>, HostFault> {
    if let Found::There(what) = looked_up(fs::metadata(rt, path))? {
        if !what.is_file() && !what.is_dir() {
            return Err(fault("no plain file and no directory"));
        }
    }
    match looked_up(File::open(rt, path))? {
        Found::Gone => Ok(Found::Gone),
        found => {
            let file = must_be_there(found)?;
            changed(file.sync_all())?;
            Ok(Found::There(file))
        }
    }
}

/// Makes what this path leads to safe.
fn sync_anew(rt: &HostRuntime, path: &str) -> Result<Answer, HostFault>
    ensures { IfOk result IsOldRow }
{
    match sync_path(rt, path)? {
        Found::There(_) => Ok(Answer::Done),
        _ => Ok(Answer::Gone),
    }
}

/// Makes a file that was kept open safe, by that handle: an error of the disk that comes late is the handle's. Where
/// the path leads to another file by now, that one too.
pub(crate) fn sync_kept(rt: &HostRuntime, kept: &Kept) -> Result<Answer, HostFault>
    ensures { IfOk result IsOldRow }
{
    match kept.sync(rt)? {
        Found::There(true) => Ok(Answer::Done),
        Found::There(false) => sync_anew(rt, kept.path()),
        _ => Ok(Answer::Gone),
    }
}

pub(crate) fn sync_file(
    rt: &HostRuntime,
    alloc: Global,
    paths: &Paths,
    made: &mut Option<Kept>,
    place: &Place,
    name: &Name,
) -> Result<Answer, HostFault>
    ensures { IfOk result IsOldRow }
{
    let path = paths.entry(alloc, place, name)?;
    match made.take() {
        Some(kept) if kept.is_of(path.as_str()) => sync_kept(rt, &kept),
        _ => sync_anew(rt, path.as_str()),
    }
}
