// Second names of files.
ghost use Rattle.std.specs.Prelude.{IfOk};
ghost use Rattle.folder_files.specs.Rows.{IsNewRow, IsOldRow};

use crate::copying::link_copy;
use crate::fault::{Found, HostFault, fault, looked_up};
use crate::link_trials::{LinkTrials, is_not_allowed};
use crate::paths::Paths;
use crate::same_file::are_one;
use crate::unlinking::done_or_gone;
use folder_files::{Answer, Place};
use mh_base::{Entry, Name, entry_of};
use std::alloc::Global;
use std::fs;
use std::fs::Metadata;
use std::os::unix::fs::MetadataExt;

pub(crate) fn link(
    rt: &HostRuntime,
    alloc: Global,
    paths: &Paths,
    run: u128,
    place: &Place,
    from: &Name,
    to: &Name,
) -> Result<Answer, HostFault>
    ensures { IfOk result IsNewRow }
{
    let from = paths.entry(alloc, place, from)?;
    let to = paths.entry(alloc, place, to)?;
    let found = match fs::hard_link(rt, from.as_str(), to.as_str()) {
        Err(error) if is_not_allowed(&error) => {
            link_copy(rt, alloc, run, from.as_str(), to.as_str())?
        }
        outcome => looked_up(outcome)?,
    };
    match found {
        Found::There(()) => Ok(Answer::Done),
        Found::Exists => Ok(Answer::Exists),
        Found::Gone => Ok(Answer::Gone),
    }
}

/// Whether the other name leads to this file too. The system leaves both where one is renamed to the other. A file of one
/// name has no other.
fn has_name_too(rt: &HostRuntime, file: &Metadata, other: &str) -> Result<bool, HostFault> {
    if file.nlink() < 2 {
        return Ok(false);
    }
    match looked_up(fs::symlink_metadata(rt, other))? {
        Found::There(found) => Ok(are_one(file, &found)),
        _ => Ok(false),
    }
}

/// Whether a message is held aside by this change of its name: from there it comes back by a Link alone.
fn is_take(from: &Name, to: &Name) -> bool {
    matches!(entry_of(from.bytes()), Entry::Number(_))
        && matches!(entry_of(to.bytes()), Entry::Held(_, _))
}

pub(crate) fn rename(
    rt: &HostRuntime,
    alloc: Global,
    paths: &Paths,
    trials: &mut LinkTrials,
    run: u128,
    place: &Place,
    from: &Name,
    to: &Name,
) -> Result<Answer, HostFault>
    ensures { IfOk result IsOldRow }
{
    let is_itself = from.same(to);
    let takes = is_take(from, to);
    let from = paths.entry(alloc, place, from)?;
    let to = paths.entry(alloc, place, to)?;
    let Found::There(what) = looked_up(fs::symlink_metadata(rt, from.as_str()))? else {
        return Ok(Answer::Gone);
    };
    // A listing has no directories, and a folder is not what is asked for.
    if what.is_dir() {
        return Err(fault("it is a directory"));
    }
    if !is_itself && has_name_too(rt, &what, to.as_str())? {
        return done_or_gone(looked_up(fs::remove_file(rt, from.as_str()))?);
    }
    if takes {
        trials.see(rt, alloc, run, from.as_str(), &what)?;
    }
    done_or_gone(looked_up(fs::rename(rt, from.as_str(), to.as_str()))?)
}
