// What matches is told.
ghost use Rattle.std.specs.Prelude.{ℕ};
ghost use Rattle.folder_files.specs.Story.{FilesState};
ghost use Rattle.file_plans.specs.Plan.{Hand};
ghost use Rattle.file_plans.specs.Follows.{Follows, by_out};
ghost use Rattle.step_plans.specs.CommandFaults.{command_cause};
ghost use Rattle.told_folders.specs.Plans.{lines_said};
ghost use Rattle.pick_plans.specs.Lines.{lines_for};
ghost use Rattle.pick_plans.specs.Pick.{said_if};

use crate::lines::lines;
use mh_base::{MsgNum, Sink};
use std::alloc::Global;
use step_plans::CommandFault;
use told_folders::say_lines;

fn say_found<O: Sink>(alloc: Global, out: &mut O, found: &[MsgNum]) -> Result<(), CommandFault>
    ensures { (run : ℕ) (h : Hand) (f : FilesState)
        → Follows run command_cause (lines_said (lines_for found.now)) (by_out h f (O.state out.old))
        (by_out h f (O.state out.new)) result }
{
    let lines = lines(alloc, found)?;
    say_lines(out, lines.as_slice())
}

/// Writes the numbers of the messages that match, or zero where none does, if they are listed.
pub(crate) fn say_if<O: Sink>(
    alloc: Global,
    out: &mut O,
    list: bool,
    found: &[MsgNum],
) -> Result<(), CommandFault>
    ensures { (run : ℕ) (h : Hand) (f : FilesState)
        → Follows run command_cause (said_if list (lines_for found.now)) (by_out h f (O.state out.old))
        (by_out h f (O.state out.new)) result }
{
    if list {
        say_found(alloc, out, found)
    } else {
        Ok(())
    }
}
