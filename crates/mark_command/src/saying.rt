// Sequences are listed.
ghost use Rattle.std.specs.Prelude.{ℕ};
ghost use Rattle.folder_files.specs.Story.{FilesState};
ghost use Rattle.file_plans.specs.Plan.{Hand};
ghost use Rattle.file_plans.specs.Follows.{Follows, by_out};
ghost use Rattle.step_plans.specs.CommandFaults.{command_cause};
ghost use Rattle.told_folders.specs.Plans.{lines_said};
ghost use Rattle.mark_command.specs.Lines.{lines_for};
ghost use Rattle.mark_command.specs.Mark.{lines_if};

use crate::MarkJob;
use crate::lines::lines;
use mh_base::Sink;
use mh_sequences::Sequences;
use std::alloc::Global;
use step_plans::CommandFault;
use told_folders::say_lines;

/// Writes a line for each sequence that the job names, or for all where it names none.
pub(crate) fn say_sequences<O: Sink>(
    alloc: Global,
    out: &mut O,
    job: &MarkJob,
    sequences: &Sequences,
) -> Result<(), CommandFault>
    ensures { (run : ℕ) (h : Hand) (f : FilesState)
        → Follows run command_cause (lines_said (lines_for job.now.names sequences.now)) (by_out h f (O.state out.old))
        (by_out h f (O.state out.new)) result }
{
    let lines = lines(alloc, &job.names, sequences)?;
    say_lines(out, lines.as_slice())
}

/// The same where the job lists.
pub(crate) fn say_if<O: Sink>(
    alloc: Global,
    out: &mut O,
    job: &MarkJob,
    sequences: &Sequences,
) -> Result<(), CommandFault>
    ensures { (run : ℕ) (h : Hand) (f : FilesState)
        → Follows run command_cause (lines_said (lines_if job.now.list (lines_for job.now.names sequences.now)))
        (by_out h f (O.state out.old)) (by_out h f (O.state out.new)) result }
{
    if job.list {
        say_sequences(alloc, out, job, sequences)
    } else {
        Ok(())
    }
}
