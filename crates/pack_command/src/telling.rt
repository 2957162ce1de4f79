// The folder is told of, once its messages are numbered anew.
ghost use Rattle.std.specs.Prelude.{◌≡◌, ◌∷◌, [], ℕ, IfOk};
ghost use Rattle.folder_files.specs.Story.{FilesState};
ghost use Rattle.file_plans.specs.Follows.{Follows, by_out};
ghost use Rattle.file_plans.specs.Plan.{Hand as HandState};
ghost use Rattle.step_plans.specs.CommandFaults.{command_cause};
ghost use Rattle.told_folders.specs.Plans.{lines_said};
ghost use Rattle.pack_plans.specs.Pack.{line_of, line_told, told_of};

use crate::PackJob;
use command_stages::make_current;
use folder_command::{FolderJob, say_summary};
use folder_files::Files;
use mh_base::{Bytes, Duplicate, List, Sink};
use mh_sequences::{NumSet, Sequences};
use std::alloc::{AllocError, Global};
use step_plans::{CommandFault, Hand};

/// What `folder` is to tell of.
fn told(alloc: Global, job: &PackJob) -> Result<FolderJob, AllocError>
    ensures { IfOk result (λ told. told ≡ told_of job.now) }
{
    let folder = job.folder.duplicate(alloc)?;
    Ok(FolderJob {
        folder,
        specs: List::new(alloc),
        negation: Bytes::new(alloc),
    })
}

/// Writes the folder's line, with these numbers and sequences.
fn say_line<O: Sink>(
    alloc: Global,
    out: &mut O,
    job: &PackJob,
    listing: &NumSet,
    sequences: &Sequences,
) -> Result<(), CommandFault>
    ensures { (run : ℕ) (h : HandState) (f : FilesState)
        → Follows run command_cause (lines_said (line_of job.now listing.now.runs sequences.now ∷ []))
        (by_out h f (O.state out.old)) (by_out h f (O.state out.new)) result }
{
    let told = told(alloc, job)?;
    say_summary(alloc, out, &told, listing, sequences)
}

/// Writes the folder's line, and makes the folder the current one.
pub(crate) fn tell_line<F: Files, O: Sink>(
    alloc: Global,
    hand: &mut Hand,
    files: &mut F,
    out: &mut O,
    job: &PackJob,
    listing: &NumSet,
    sequences: &Sequences,
) -> Result<(), CommandFault>
    ensures plan { Follows hand.old.run command_cause
        (line_told hand.old.run hand.old.mail job.now (line_of job.now listing.now.runs sequences.now))
        (by_out hand.old.kept (F.state files.old) (O.state out.old))
        (by_out hand.new.kept (F.state files.new) (O.state out.new)) result }
    ensures run { hand.new.run ≡ hand.old.run }
    ensures mail { hand.new.mail ≡ hand.old.mail }
{
    say_line(alloc, out, job, listing, sequences)?;
    make_current(alloc, hand, files, &job.folder)
}
