// Lines are said.
ghost use Rattle.std.specs.Prelude.{ℕ};
ghost use Rattle.folder_files.specs.Story.{FilesState};
ghost use Rattle.file_plans.specs.Plan.{Hand};
ghost use Rattle.file_plans.specs.Follows.{Follows, by_out};
ghost use Rattle.step_plans.specs.CommandFaults.{command_cause};
ghost use Rattle.told_folders.specs.Plans.{lines_said};

use file_plans::say;
use mh_base::{Bytes, Sink};
use step_plans::CommandFault;

/// Writes these lines, one after another.
pub fn say_lines<O: Sink>(out: &mut O, lines: &[Bytes]) -> Result<(), CommandFault>
    ensures { (run : ℕ) (h : Hand) (f : FilesState)
        → Follows run command_cause (lines_said lines.now) (by_out h f (O.state out.old))
        (by_out h f (O.state out.new)) result }
{
    for line in lines {
        say(out, line.as_slice())?;
    }
    Ok(())
}
