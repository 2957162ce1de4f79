// `mark`: messages come to sequences and leave them.
ghost use Rattle.std.specs.Prelude.{◌≡◌};
ghost use Rattle.file_plans.specs.Follows.{Follows, by_hand, by_out};
ghost use Rattle.step_plans.specs.CommandFaults.{command_cause};
ghost use Rattle.told_folders.specs.Plans.{chosen_changed, folder_changed, opened_told};
ghost use Rattle.told_folders.specs.Tasks.{chosen_from};
ghost use Rattle.told_folders.specs.ToldAlone.{TellsIfUnfaulted};
ghost use Rattle.mark_command.specs.Mark.{mark as mark_plan, mark_task, mark_work};
ghost use Rattle.mark_command.specs.Values.{AreMarks, PromisesSteps};

use crate::looking::look;
use crate::marks::marks;
use crate::saying::say_if;
use crate::{MarkAct, MarkJob};
use command_stages::{choose, fault_in, folder_place, make_current};
use folder_files::Files;
use mh_base::{Duplicate, Sink};
use mh_sequences::MarkList;
use opened_folders::{Opened, commit_marks, end, open};
use std::alloc::Global;
use step_plans::{CommandFault, Hand};

/// The marks on the messages that the words choose.
fn chosen_marks(
    alloc: Global,
    job: &MarkJob,
    act: MarkAct,
    opened: &Opened,
) -> Result<MarkList, CommandFault>
    ensures { AreMarks job.now act opened.now.listing
        (chosen_from (mark_task job.now act) opened.now.listing opened.now.sequences) result }
{
    let chosen = choose(
        alloc,
        &job.specs,
        opened.listing(),
        opened.sequences(),
        job.negation.as_slice(),
    )?;
    Ok(marks(alloc, job, act, opened.listing(), &chosen)?)
}

/// Sets the marks on the messages that the words choose, and commits them.
fn mark_chosen<F: Files>(
    alloc: Global,
    hand: &mut Hand,
    files: &mut F,
    job: &MarkJob,
    act: MarkAct,
    mut opened: Opened,
) -> Result<Opened, CommandFault>
    ensures plan { Follows hand.old.run command_cause
        (chosen_changed hand.old.run hand.old.mail (mark_task job.now act) opened)
        (by_hand hand.old.kept (F.state files.old)) (by_hand hand.new.kept (F.state files.new)) result }
    ensures run { hand.new.run ≡ hand.old.run }
    ensures mail { hand.new.mail ≡ hand.old.mail }
{
    let marks = chosen_marks(alloc, job, act, &opened)?;
    let folder = job.folder.duplicate(alloc)?;
    match commit_marks(alloc, hand, files, &mut opened, marks.as_slice()) {
        Ok(()) => Ok(opened),
        Err(fault) => Err(fault_in(folder, fault)),
    }
}

/// The work on a folder that was begun.
fn mark_opened<F: Files, O: Sink>(
    alloc: Global,
    hand: &mut Hand,
    files: &mut F,
    out: &mut O,
    job: &MarkJob,
    act: MarkAct,
    opened: Opened,
) -> Result<(), CommandFault>
    ensures plan { Follows hand.old.run command_cause
        (opened_told hand.old.run hand.old.mail (mark_task job.now act) opened)
        (by_out hand.old.kept (F.state files.old) (O.state out.old))
        (by_out hand.new.kept (F.state files.new) (O.state out.new)) result }
    ensures run { hand.new.run ≡ hand.old.run }
    ensures mail { hand.new.mail ≡ hand.old.mail }
{
    let opened = mark_chosen(alloc, hand, files, job, act, opened)?;
    say_if(alloc, out, job, opened.sequences())?;
    make_current(alloc, hand, files, &job.folder)
}

fn change<F: Files, O: Sink>(
    alloc: Global,
    hand: &mut Hand,
    files: &mut F,
    out: &mut O,
    job: &MarkJob,
    act: MarkAct,
) -> Result<(), CommandFault>
    ensures plan { Follows hand.old.run command_cause
        (folder_changed hand.old.run hand.old.mail (mark_task job.now act))
        (by_out hand.old.kept (F.state files.old) (O.state out.old))
        (by_out hand.new.kept (F.state files.new) (O.state out.new)) result }
    ensures run { hand.new.run ≡ hand.old.run }
    ensures mail { hand.new.mail ≡ hand.old.mail }
{
    let place = folder_place(alloc, hand, &job.folder)?;
    let opened = open(alloc, hand, files, &job.folder)?;
    let done = mark_opened(alloc, hand, files, out, job, act, opened);
    end(alloc, hand.run(), files, &place, done)
}

/// Sets the marks that the job asks for, on a folder that it begins, or lists its sequences without its lock; and makes
/// the folder the current one.
pub fn mark<F: Files, O: Sink>(
    alloc: Global,
    hand: &mut Hand,
    files: &mut F,
    out: &mut O,
    job: &MarkJob,
) -> Result<(), CommandFault>
    ensures plan { Follows hand.old.run command_cause (mark_plan hand.old.run hand.old.mail job.now)
        (by_out hand.old.kept (F.state files.old) (O.state out.old))
        (by_out hand.new.kept (F.state files.new) (O.state out.new)) result }
    ensures alone { TellsIfUnfaulted hand.old.run hand.old.mail job.now.folder hand.old.kept
        (mark_work hand.old.mail job.now) result (F.state files.old) (F.state files.new) (O.state out.old)
        (O.state out.new) }
    ensures steps { PromisesSteps hand.old.run hand.old.mail job.now
        (by_out hand.old.kept (F.state files.old) (O.state out.old))
        (by_out hand.new.kept (F.state files.new) (O.state out.new)) }
    ensures run { hand.new.run ≡ hand.old.run }
    ensures mail { hand.new.mail ≡ hand.old.mail }
{
    match job.act {
        Some(act) => change(alloc, hand, files, out, job, act),
        None => look(alloc, hand, files, out, job),
    }
}
