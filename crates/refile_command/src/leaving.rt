// `rmm`: messages leave a folder.
ghost use Rattle.std.specs.Prelude.{◌≡◌};
ghost use Rattle.file_plans.specs.Follows.{Follows, by_hand};
ghost use Rattle.step_plans.specs.CommandFaults.{command_cause};
ghost use Rattle.command_stages.specs.Chosen.{IsValue};
ghost use Rattle.refile_plans.specs.Rmm.{chosen_from, opened_removed, rmm as rmm_plan, said_removed};
ghost use Rattle.refile_plans.specs.RmmPledge.{PromisesSteps};

use crate::RmmJob;
use crate::removing::remove_marked;
use command_stages::{choose, fault_in, folder_place, make_current};
use folder_files::Files;
use mh_base::Duplicate;
use mh_sequences::NumSet;
use opened_folders::{Opened, end, open};
use std::alloc::Global;
use step_plans::{CommandFault, Hand};

/// The messages that the words choose.
fn chosen(alloc: Global, job: &RmmJob, opened: &Opened) -> Result<NumSet, CommandFault>
    ensures { IsValue (chosen_from job.now opened.now.listing opened.now.sequences) result }
{
    choose(
        alloc,
        &job.specs,
        opened.listing(),
        opened.sequences(),
        job.negation.as_slice(),
    )
}

/// The messages that the words choose leave the folder.
fn remove_chosen<F: Files>(
    alloc: Global,
    hand: &mut Hand,
    files: &mut F,
    job: &RmmJob,
    mut opened: Opened,
) -> Result<(), CommandFault>
    ensures plan { Follows hand.old.run command_cause (said_removed hand.old.run hand.old.mail job.now opened)
        (by_hand hand.old.kept (F.state files.old)) (by_hand hand.new.kept (F.state files.new)) result }
    ensures run { hand.new.run ≡ hand.old.run }
    ensures mail { hand.new.mail ≡ hand.old.mail }
{
    let chosen = chosen(alloc, job, &opened)?;
    let folder = job.folder.duplicate(alloc)?;
    match remove_marked(alloc, hand, files, &mut opened, chosen, !job.unlink) {
        Ok(()) => Ok(()),
        Err(fault) => Err(fault_in(folder, fault)),
    }
}

/// The work on a folder that was begun.
fn remove_opened<F: Files>(
    alloc: Global,
    hand: &mut Hand,
    files: &mut F,
    job: &RmmJob,
    opened: Opened,
) -> Result<(), CommandFault>
    ensures plan { Follows hand.old.run command_cause (opened_removed hand.old.run hand.old.mail job.now opened)
        (by_hand hand.old.kept (F.state files.old)) (by_hand hand.new.kept (F.state files.new)) result }
    ensures run { hand.new.run ≡ hand.old.run }
    ensures mail { hand.new.mail ≡ hand.old.mail }
{
    remove_chosen(alloc, hand, files, job, opened)?;
    make_current(alloc, hand, files, &job.folder)
}

/// Removes the messages that the job's words choose of the folder, which it begins: each gets its backup's name, or
/// none; then the folder is made safe, and they leave its sequences; the current message stays. At last the folder
/// becomes the current one.
pub fn rmm<F: Files>(
    alloc: Global,
    hand: &mut Hand,
    files: &mut F,
    job: &RmmJob,
) -> Result<(), CommandFault>
    ensures plan { Follows hand.old.run command_cause (rmm_plan hand.old.run hand.old.mail job.now)
        (by_hand hand.old.kept (F.state files.old)) (by_hand hand.new.kept (F.state files.new)) result }
    ensures steps { PromisesSteps hand.old.run hand.old.mail job.now (by_hand hand.old.kept (F.state files.old))
        (by_hand hand.new.kept (F.state files.new)) }
    ensures run { hand.new.run ≡ hand.old.run }
    ensures mail { hand.new.mail ≡ hand.old.mail }
{
    let place = folder_place(alloc, hand, &job.folder)?;
    let opened = open(alloc, hand, files, &job.folder)?;
    let done = remove_opened(alloc, hand, files, job, opened);
    end(alloc, hand.run(), files, &place, done)
}
