// `pick`: the messages of which an expression holds are found, marked and told.
ghost use Rattle.std.specs.Prelude.{◌≡◌};
ghost use Rattle.file_plans.specs.Follows.{Follows, by_hand, by_out};
ghost use Rattle.file_plans.specs.Plan.{lifted};
ghost use Rattle.folder_files.specs.declared.place.Place.TheVariants.{Mail};
ghost use Rattle.step_plans.specs.CommandFaults.{command_cause};
ghost use Rattle.sequence_commits.specs.Committing.{changed_sequences};
ghost use Rattle.command_stages.specs.Endings.{of_plan};
ghost use Rattle.pick_plans.specs.Marking.{marked_for};
ghost use Rattle.pick_plans.specs.Pick.{chosen_from, found_marked, opened_picked, pick as pick_plan, pick_changes};
ghost use Rattle.pick_plans.specs.PickPledge.{PromisesSteps};
ghost use Rattle.pick_plans.specs.PickedAlone.{PicksIfUnfaulted};
ghost use Rattle.pick_plans.specs.Values.{AreValue};

use crate::looking::look;
use crate::marks::marks;
use crate::picking::{find, tell};
use crate::{PickJob, PickMarks};
use command_stages::{choose, fault_in, folder_place, numbers};
use folder_files::Files;
use mh_base::{Duplicate, MsgNum, Sink};
use opened_folders::{Opened, commit_marks, end, open};
use std::alloc::Global;
use step_plans::{CommandFault, Hand};

/// The messages that the words choose.
fn chosen(alloc: Global, job: &PickJob, opened: &Opened) -> Result<Vec<MsgNum>, CommandFault>
    ensures { AreValue (chosen_from job.now opened.now.listing opened.now.sequences) result }
{
    let set = choose(
        alloc,
        &job.specs,
        opened.listing(),
        opened.sequences(),
        job.negation.as_slice(),
    )?;
    Ok(numbers(alloc, &set)?)
}

/// Brings these messages into the sequences, and commits them.
fn commit_found<F: Files>(
    alloc: Global,
    hand: &mut Hand,
    files: &mut F,
    job: &PickJob,
    to: &PickMarks,
    opened: &mut Opened,
    found: &[MsgNum],
) -> Result<(), CommandFault>
    ensures plan { Follows hand.old.run command_cause
        (lifted (of_plan job.now.folder)
        (changed_sequences hand.old.run opened.old.place (Mail hand.old.mail) opened.old.folder opened.old.sequences
        (marked_for to.now found.now opened.old.sequences))) (by_hand hand.old.kept (F.state files.old))
        (by_hand hand.new.kept (F.state files.new)) result }
    ensures run { hand.new.run ≡ hand.old.run }
    ensures mail { hand.new.mail ≡ hand.old.mail }
{
    let marks = marks(alloc, to, found)?;
    let folder = job.folder.duplicate(alloc)?;
    match commit_marks(alloc, hand, files, opened, marks.as_slice()) {
        Ok(()) => Ok(()),
        Err(fault) => Err(fault_in(folder, fault)),
    }
}

/// Brings these messages into the sequences, commits these, and tells their numbers.
fn mark_found<F: Files, O: Sink>(
    alloc: Global,
    hand: &mut Hand,
    files: &mut F,
    out: &mut O,
    job: &PickJob,
    to: &PickMarks,
    mut opened: Opened,
    found: &[MsgNum],
) -> Result<(), CommandFault>
    ensures plan { Follows hand.old.run command_cause
        (found_marked hand.old.run hand.old.mail job.now to.now opened found.now)
        (by_out hand.old.kept (F.state files.old) (O.state out.old))
        (by_out hand.new.kept (F.state files.new) (O.state out.new)) result }
    ensures run { hand.new.run ≡ hand.old.run }
    ensures mail { hand.new.mail ≡ hand.old.mail }
{
    commit_found(alloc, hand, files, job, to, &mut opened, found)?;
    tell(alloc, hand, files, out, job, found)
}

/// The work on a folder that was begun.
fn pick_opened<F: Files, O: Sink>(
    alloc: Global,
    hand: &mut Hand,
    files: &mut F,
    out: &mut O,
    job: &PickJob,
    to: &PickMarks,
    opened: Opened,
) -> Result<(), CommandFault>
    ensures plan { Follows hand.old.run command_cause (opened_picked hand.old.run hand.old.mail job.now to.now opened)
        (by_out hand.old.kept (F.state files.old) (O.state out.old))
        (by_out hand.new.kept (F.state files.new) (O.state out.new)) result }
    ensures run { hand.new.run ≡ hand.old.run }
    ensures mail { hand.new.mail ≡ hand.old.mail }
{
    let numbers = chosen(alloc, job, &opened)?;
    let found = find(
        alloc,
        hand.run(),
        files,
        out,
        opened.place(),
        job,
        numbers.as_slice(),
    )?;
    mark_found(alloc, hand, files, out, job, to, opened, found.as_slice())
}

fn change<F: Files, O: Sink>(
    alloc: Global,
    hand: &mut Hand,
    files: &mut F,
    out: &mut O,
    job: &PickJob,
    to: &PickMarks,
) -> Result<(), CommandFault>
    ensures plan { Follows hand.old.run command_cause (pick_changes hand.old.run hand.old.mail job.now to.now)
        (by_out hand.old.kept (F.state files.old) (O.state out.old))
        (by_out hand.new.kept (F.state files.new) (O.state out.new)) result }
    ensures run { hand.new.run ≡ hand.old.run }
    ensures mail { hand.new.mail ≡ hand.old.mail }
{
    let place = folder_place(alloc, hand, &job.folder)?;
    let opened = open(alloc, hand, files, &job.folder)?;
    let done = pick_opened(alloc, hand, files, out, job, to, opened);
    end(alloc, hand.run(), files, &place, done)
}

/// Finds the messages of which the expression holds, among those that the words choose: brings them into the sequences
/// of the job, on a folder that it begins, or looks for them without its lock; tells their numbers, and makes the
/// folder the current one.
pub fn pick<F: Files, O: Sink>(
    alloc: Global,
    hand: &mut Hand,
    files: &mut F,
    out: &mut O,
    job: &PickJob,
) -> Result<(), CommandFault>
    ensures plan { Follows hand.old.run command_cause (pick_plan hand.old.run hand.old.mail job.now)
        (by_out hand.old.kept (F.state files.old) (O.state out.old))
        (by_out hand.new.kept (F.state files.new) (O.state out.new)) result }
    ensures alone { PicksIfUnfaulted hand.old.run hand.old.mail hand.old.kept job.now result (F.state files.old)
        (F.state files.new) (O.state out.old) (O.state out.new) }
    ensures steps { PromisesSteps hand.old.run hand.old.mail job.now
        (by_out hand.old.kept (F.state files.old) (O.state out.old))
        (by_out hand.new.kept (F.state files.new) (O.state out.new)) }
    ensures run { hand.new.run ≡ hand.old.run }
    ensures mail { hand.new.mail ≡ hand.old.mail }
{
    match &job.marks {
        Some(to) => change(alloc, hand, files, out, job, to),
        None => look(alloc, hand, files, out, job),
    }
}
