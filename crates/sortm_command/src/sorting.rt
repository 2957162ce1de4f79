// `sortm`: messages change places, so that they stand in order.
ghost use Rattle.std.specs.Prelude.{◌≡◌};
ghost use Rattle.file_plans.specs.Follows.{Follows, by_hand};
ghost use Rattle.step_plans.specs.CommandFaults.{command_cause};
ghost use Rattle.command_stages.specs.Chosen.{IsValue};
ghost use Rattle.sortm_plans.specs.Sort.{chosen_from, chosen_sorted, opened_sorted, sortm as sortm_plan};
ghost use Rattle.sortm_plans.specs.SortAlone.{SortsIfUnfaulted};
ghost use Rattle.sortm_plans.specs.SortPledge.{PromisesSteps};

use crate::SortJob;
use crate::moving::{change_places, moves};
use crate::reading::read_order;
use command_stages::{choose, fault_in, folder_place, make_current, numbers};
use folder_files::Files;
use mh_base::{Duplicate, List, MsgNum};
use mh_sequences::NumSet;
use opened_folders::{Opened, end, open};
use std::alloc::Global;
use step_plans::{CommandFault, Hand};

/// The messages that the words choose.
fn chosen(alloc: Global, job: &SortJob, opened: &Opened) -> Result<NumSet, CommandFault>
    ensures { IsValue (chosen_from job.now opened.now.listing opened.now.sequences) result }
{
    choose(
        alloc,
        &job.specs,
        opened.listing(),
        opened.sequences(),
        job.negation.as_slice(),
    )
}

/// The messages that the words choose are read, and change places; where those ended that moved.
fn sort_chosen<F: Files>(
    alloc: Global,
    hand: &mut Hand,
    files: &mut F,
    job: &SortJob,
    opened: &mut Opened,
) -> Result<List<MsgNum>, CommandFault>
    ensures plan { Follows hand.old.run command_cause (chosen_sorted hand.old.run hand.old.mail job.now opened.old)
        (by_hand hand.old.kept (F.state files.old)) (by_hand hand.new.kept (F.state files.new)) result }
    ensures run { hand.new.run ≡ hand.old.run }
    ensures mail { hand.new.mail ≡ hand.old.mail }
{
    let chosen = chosen(alloc, job, opened)?;
    let numbers = numbers(alloc, &chosen)?;
    let order = read_order(
        alloc,
        hand.run(),
        files,
        opened.place(),
        &job.key,
        numbers.as_slice(),
    )?;
    let moves = moves(alloc, order.as_slice(), numbers.as_slice())?;
    let folder = job.folder.duplicate(alloc)?;
    match change_places(alloc, hand, files, opened, moves.as_slice()) {
        Ok(ends) => Ok(ends),
        Err(fault) => Err(fault_in(folder, fault)),
    }
}

/// The work on a folder that was begun.
fn sort_opened<F: Files>(
    alloc: Global,
    hand: &mut Hand,
    files: &mut F,
    job: &SortJob,
    mut opened: Opened,
) -> Result<(), CommandFault>
    ensures plan { Follows hand.old.run command_cause (opened_sorted hand.old.run hand.old.mail job.now opened)
        (by_hand hand.old.kept (F.state files.old)) (by_hand hand.new.kept (F.state files.new)) result }
    ensures run { hand.new.run ≡ hand.old.run }
    ensures mail { hand.new.mail ≡ hand.old.mail }
{
    sort_chosen(alloc, hand, files, job, &mut opened)?;
    make_current(alloc, hand, files, &job.folder)
}

/// Puts the messages that the words choose in order, in a folder that is begun: by the date or the text of a field, and
/// by number where these are the same. Each gets the number of the place where it comes, of those that they had. Marks
/// and the current message go with their messages. Where all stand in order nothing changes. Then the folder becomes
/// the current one.
pub fn sortm<F: Files>(
    alloc: Global,
    hand: &mut Hand,
    files: &mut F,
    job: &SortJob,
) -> Result<(), CommandFault>
    ensures plan { Follows hand.old.run command_cause (sortm_plan hand.old.run hand.old.mail job.now)
        (by_hand hand.old.kept (F.state files.old)) (by_hand hand.new.kept (F.state files.new)) result }
    ensures alone { SortsIfUnfaulted hand.old.run hand.old.mail job.now hand.old.kept result (F.state files.old)
        (F.state files.new) }
    ensures steps { PromisesSteps hand.old.run hand.old.mail job.now (by_hand hand.old.kept (F.state files.old))
        (by_hand hand.new.kept (F.state files.new)) }
    ensures run { hand.new.run ≡ hand.old.run }
    ensures mail { hand.new.mail ≡ hand.old.mail }
{
    let place = folder_place(alloc, hand, &job.folder)?;
    let opened = open(alloc, hand, files, &job.folder)?;
    let done = sort_opened(alloc, hand, files, job, opened);
    end(alloc, hand.run(), files, &place, done)
}
