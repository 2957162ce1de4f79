// `folder` that only looks.
ghost use Rattle.std.specs.Prelude.{◌≡◌, [], ℕ};
ghost use Rattle.folder_files.specs.Story.{FilesState};
ghost use Rattle.file_plans.specs.Plan.{Hand as HandState};
ghost use Rattle.file_plans.specs.Follows.{Follows, by_out};
ghost use Rattle.step_plans.specs.CommandFaults.{command_cause};
ghost use Rattle.told_folders.specs.Plans.{folder_looked, lines_said};
ghost use Rattle.folder_command.specs.Folder.{task_with};

use crate::FolderJob;
use crate::summary::summary;
use command_stages::{folder_place, list_folder, make_current, read_sequences_text};
use folder_files::Files;
use mh_base::{List, Sink};
use mh_sequences::{NumSet, Sequences};
use std::alloc::Global;
use step_plans::{CommandFault, Hand};
use told_folders::{listed, say_lines, sequences_listed};

/// Writes the line of a folder with these messages and sequences.
pub fn say_summary<O: Sink>(
    alloc: Global,
    out: &mut O,
    job: &FolderJob,
    listing: &NumSet,
    sequences: &Sequences,
) -> Result<(), CommandFault>
    ensures { (run : ℕ) (h : HandState) (f : FilesState)
        → Follows run command_cause (lines_said ((task_with [] job.now).lines listing.now.runs sequences.now))
        (by_out h f (O.state out.old)) (by_out h f (O.state out.new)) result }
{
    let name = job.folder.text().as_str().as_bytes();
    let mut lines = List::new(alloc);
    lines.push(summary(alloc, name, listing, sequences.cur())?)?;
    say_lines(out, lines.as_slice())
}

/// Tells of the folder, and makes it the current one.
pub(crate) fn look<F: Files, O: Sink>(
    alloc: Global,
    hand: &mut Hand,
    files: &mut F,
    out: &mut O,
    job: &FolderJob,
) -> Result<(), CommandFault>
    ensures plan { Follows hand.old.run command_cause (folder_looked hand.old.run hand.old.mail (task_with [] job.now))
        (by_out hand.old.kept (F.state files.old) (O.state out.old))
        (by_out hand.new.kept (F.state files.new) (O.state out.new)) result }
    ensures run { hand.new.run ≡ hand.old.run }
    ensures mail { hand.new.mail ≡ hand.old.mail }
{
    let place = folder_place(alloc, hand, &job.folder)?;
    let names = list_folder(alloc, hand.run(), files, &place, &job.folder)?;
    let text = read_sequences_text(alloc, hand.run(), files, &place)?;
    let listing = listed(alloc, &names)?;
    let sequences = sequences_listed(alloc, hand, &job.folder, text.as_slice(), &listing)?;
    say_summary(alloc, out, job, &listing, &sequences)?;
    make_current(alloc, hand, files, &job.folder)
}
