// `anno`: messages get lines in front.
ghost use Rattle.std.specs.Prelude.{◌≡◌};
ghost use Rattle.file_plans.specs.Follows.{Follows, by_hand};
ghost use Rattle.step_plans.specs.CommandFaults.{command_cause};
ghost use Rattle.command_stages.specs.Chosen.{IsValue};
ghost use Rattle.anno_plans.specs.Anno.{anno as anno_plan, chosen_from, opened_noted, said_noted};
ghost use Rattle.anno_plans.specs.AnnoAlone.{NotesIfUnfaulted};
ghost use Rattle.anno_plans.specs.AnnoPledge.{PromisesSteps};

use crate::AnnoJob;
use command_stages::{choose, fault_in, folder_place, make_current, numbers};
use folder_files::Files;
use message_notes::note_messages;
use mh_base::Duplicate;
use mh_sequences::NumSet;
use opened_folders::{Opened, end, open};
use std::alloc::Global;
use step_plans::{CommandFault, Hand};

/// The messages that the words choose.
fn chosen(alloc: Global, job: &AnnoJob, opened: &Opened) -> Result<NumSet, CommandFault>
    ensures { IsValue (chosen_from job.now opened.now.listing opened.now.sequences) result }
{
    choose(
        alloc,
        &job.specs,
        opened.listing(),
        opened.sequences(),
        job.negation.as_slice(),
    )
}

/// The messages that the words choose get the lines.
fn note_chosen<F: Files>(
    alloc: Global,
    hand: &mut Hand,
    files: &mut F,
    job: &AnnoJob,
    opened: &Opened,
) -> Result<(), CommandFault>
    ensures plan { Follows hand.old.run command_cause (said_noted hand.old.run job.now opened.now)
        (by_hand hand.old.kept (F.state files.old)) (by_hand hand.new.kept (F.state files.new)) result }
    ensures run { hand.new.run ≡ hand.old.run }
    ensures mail { hand.new.mail ≡ hand.old.mail }
{
    let chosen = chosen(alloc, job, opened)?;
    let numbers = numbers(alloc, &chosen)?;
    let folder = job.folder.duplicate(alloc)?;
    let top = opened.highest();
    match note_messages(
        alloc,
        hand,
        files,
        opened.place(),
        job.lines.as_slice(),
        numbers.as_slice(),
        top,
    ) {
        Ok(()) => Ok(()),
        Err(fault) => Err(fault_in(folder, fault)),
    }
}

/// The work on a folder that was begun.
fn note_opened<F: Files>(
    alloc: Global,
    hand: &mut Hand,
    files: &mut F,
    job: &AnnoJob,
    opened: Opened,
) -> Result<(), CommandFault>
    ensures plan { Follows hand.old.run command_cause (opened_noted hand.old.run hand.old.mail job.now opened)
        (by_hand hand.old.kept (F.state files.old)) (by_hand hand.new.kept (F.state files.new)) result }
    ensures run { hand.new.run ≡ hand.old.run }
    ensures mail { hand.new.mail ≡ hand.old.mail }
{
    note_chosen(alloc, hand, files, job, &opened)?;
    make_current(alloc, hand, files, &job.folder)
}

/// Puts the lines in front of the bytes of each message that the words choose, in a folder that is begun: each is held
/// aside, put anew at its number, and let go once that is safe. Marks stay with their messages. Then the folder becomes
/// the current one.
pub fn anno<F: Files>(
    alloc: Global,
    hand: &mut Hand,
    files: &mut F,
    job: &AnnoJob,
) -> Result<(), CommandFault>
    ensures plan { Follows hand.old.run command_cause (anno_plan hand.old.run hand.old.mail job.now)
        (by_hand hand.old.kept (F.state files.old)) (by_hand hand.new.kept (F.state files.new)) result }
    ensures alone { NotesIfUnfaulted hand.old.run hand.old.mail job.now hand.old.kept result (F.state files.old)
        (F.state files.new) }
    ensures steps { PromisesSteps hand.old.run hand.old.mail job.now (by_hand hand.old.kept (F.state files.old))
        (by_hand hand.new.kept (F.state files.new)) }
    ensures run { hand.new.run ≡ hand.old.run }
    ensures mail { hand.new.mail ≡ hand.old.mail }
{
    let place = folder_place(alloc, hand, &job.folder)?;
    let opened = open(alloc, hand, files, &job.folder)?;
    let done = note_opened(alloc, hand, files, job, opened);
    end(alloc, hand.run(), files, &place, done)
}
