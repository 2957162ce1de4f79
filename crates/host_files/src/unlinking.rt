// Names that go.
ghost use Rattle.std.specs.Prelude.{IfOk};
ghost use Rattle.folder_files.specs.Rows.{IsOldRow};

use crate::fault::{Found, HostFault, fault, looked_up};
use crate::paths::Paths;
use folder_files::{Answer, Place};
use mh_base::Name;
use std::alloc::Global;
use std::fs;

/// Done, or gone; a name that is taken is a fault here.
pub(crate) fn done_or_gone(there: Found<()>) -> Result<Answer, HostFault>
    ensures { IfOk result IsOldRow }
{
    match there {
        Found::There(()) => Ok(Answer::Done),
        Found::Gone => Ok(Answer::Gone),
        Found::Exists => Err(fault("the name is taken")),
    }
}

pub(crate) fn unlink(
    rt: &HostRuntime,
    alloc: Global,
    paths: &Paths,
    place: &Place,
    name: &Name,
) -> Result<Answer, HostFault>
    ensures { IfOk result IsOldRow }
{
    let path = paths.entry(alloc, place, name)?;
    done_or_gone(looked_up(fs::remove_file(rt, path.as_str()))?)
}
