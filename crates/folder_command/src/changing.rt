// `folder`: one of its messages becomes the current one.
ghost use Rattle.std.specs.Prelude.{◌≡◌};
ghost use Rattle.file_plans.specs.Follows.{Follows, by_hand, by_out};
ghost use Rattle.step_plans.specs.CommandFaults.{command_cause};
ghost use Rattle.step_plans.specs.Promises.{Promises};
ghost use Rattle.told_folders.specs.Plans.{chosen_changed, folder_changed, opened_told};
ghost use Rattle.told_folders.specs.Tasks.{chosen_from};
ghost use Rattle.told_folders.specs.ToldAlone.{TellsIfUnfaulted};
ghost use Rattle.folder_command.specs.Folder.{folder as folder_plan, folder_work, pledge_by, task_with};
ghost use Rattle.folder_command.specs.Values.{AreCurrent, PromisesSteps};

use crate::FolderJob;
use crate::looking::{look, say_summary};
use command_stages::{choose, fault_in, folder_place, make_current};
use folder_files::Files;
use mh_base::{Duplicate, List, Sink};
use mh_sequences::{Mark, MarkList};
use opened_folders::{Opened, commit_marks, end, open};
use std::alloc::Global;
use step_plans::{CommandFault, Hand};

/// The least message that the words choose becomes the current one.
fn current_mark(alloc: Global, job: &FolderJob, opened: &Opened) -> Result<MarkList, CommandFault>
    ensures { AreCurrent
        (chosen_from (task_with job.now.specs job.now) opened.now.listing opened.now.sequences) result }
{
    let chosen = choose(
        alloc,
        &job.specs,
        opened.listing(),
        opened.sequences(),
        job.negation.as_slice(),
    )?;
    let mut marks = List::new(alloc);
    marks.push(Mark::Cur(chosen.at(0)))?;
    Ok(marks)
}

/// Sets the current message, and commits it.
fn set_current<F: Files>(
    alloc: Global,
    hand: &mut Hand,
    files: &mut F,
    job: &FolderJob,
    mut opened: Opened,
) -> Result<Opened, CommandFault>
    ensures plan { Follows hand.old.run command_cause
        (chosen_changed hand.old.run hand.old.mail (task_with job.now.specs job.now) opened)
        (by_hand hand.old.kept (F.state files.old)) (by_hand hand.new.kept (F.state files.new)) result }
    ensures run { hand.new.run ≡ hand.old.run }
    ensures mail { hand.new.mail ≡ hand.old.mail }
{
    let marks = current_mark(alloc, job, &opened)?;
    let folder = job.folder.duplicate(alloc)?;
    match commit_marks(alloc, hand, files, &mut opened, marks.as_slice()) {
        Ok(()) => Ok(opened),
        Err(fault) => Err(fault_in(folder, fault)),
    }
}

/// The work on a folder that was begun.
fn tell_opened<F: Files, O: Sink>(
    alloc: Global,
    hand: &mut Hand,
    files: &mut F,
    out: &mut O,
    job: &FolderJob,
    opened: Opened,
) -> Result<(), CommandFault>
    ensures plan { Follows hand.old.run command_cause
        (opened_told hand.old.run hand.old.mail (task_with job.now.specs job.now) opened)
        (by_out hand.old.kept (F.state files.old) (O.state out.old))
        (by_out hand.new.kept (F.state files.new) (O.state out.new)) result }
    ensures run { hand.new.run ≡ hand.old.run }
    ensures mail { hand.new.mail ≡ hand.old.mail }
{
    let opened = set_current(alloc, hand, files, job, opened)?;
    say_summary(alloc, out, job, opened.listing(), opened.sequences())?;
    make_current(alloc, hand, files, &job.folder)
}

fn change<F: Files, O: Sink>(
    alloc: Global,
    hand: &mut Hand,
    files: &mut F,
    out: &mut O,
    job: &FolderJob,
) -> Result<(), CommandFault>
    ensures plan { Follows hand.old.run command_cause
        (folder_changed hand.old.run hand.old.mail (task_with job.now.specs job.now))
        (by_out hand.old.kept (F.state files.old) (O.state out.old))
        (by_out hand.new.kept (F.state files.new) (O.state out.new)) result }
    ensures run { hand.new.run ≡ hand.old.run }
    ensures mail { hand.new.mail ≡ hand.old.mail }
{
    let place = folder_place(alloc, hand, &job.folder)?;
    let opened = open(alloc, hand, files, &job.folder)?;
    let done = tell_opened(alloc, hand, files, out, job, opened);
    end(alloc, hand.run(), files, &place, done)
}

/// Tells of the folder and makes it the current one. Where words choose messages, the least of these becomes the
/// current message, on a folder that is begun; without words it takes no lock.
pub fn folder<F: Files, O: Sink>(
    alloc: Global,
    hand: &mut Hand,
    files: &mut F,
    out: &mut O,
    job: &FolderJob,
) -> Result<(), CommandFault>
    ensures plan { Follows hand.old.run command_cause (folder_plan hand.old.run hand.old.mail job.now)
        (by_out hand.old.kept (F.state files.old) (O.state out.old))
        (by_out hand.new.kept (F.state files.new) (O.state out.new)) result }
    ensures alone { TellsIfUnfaulted hand.old.run hand.old.mail job.now.folder hand.old.kept
        (folder_work hand.old.mail job.now) result (F.state files.old) (F.state files.new) (O.state out.old)
        (O.state out.new) }
    ensures steps { PromisesSteps hand.old.run hand.old.mail job.now
        (by_out hand.old.kept (F.state files.old) (O.state out.old))
        (by_out hand.new.kept (F.state files.new) (O.state out.new)) }
    ensures run { hand.new.run ≡ hand.old.run }
    ensures mail { hand.new.mail ≡ hand.old.mail }
{
    if job.specs.is_empty() {
        look(alloc, hand, files, out, job)
    } else {
        change(alloc, hand, files, out, job)
    }
}
