// Messages that were given their new numbers are held no longer.
ghost use Rattle.std.specs.Prelude.{◌≡◌};
ghost use Rattle.file_plans.specs.Plan.{Hand};
ghost use Rattle.file_plans.specs.Follows.{Follows, by_hand};
ghost use Rattle.step_plans.specs.Locking.{removed};
ghost use Rattle.step_plans.specs.PlanFaults.{plan_cause};
ghost use Rattle.held_messages.specs.Settle.{synced_at};
ghost use Rattle.message_places.specs.Arranging.{all_dropped, aside_name, dropped_for_good, dropped_safely, let_go_after};

use crate::giving::name_aside;
use crate::moves::Move;
use folder_files::{Files, Place};
use mh_base::{Entry, MsgNum, entry_name};
use std::alloc::Global;
use step_plans::{PlanFault, sync, unlink};

fn sync_at<F: Files>(
    alloc: Global,
    run: u128,
    files: &mut F,
    place: &Place,
    number: MsgNum,
) -> Result<(), PlanFault>
    ensures { (h : Hand)
        → Follows run plan_cause (synced_at place.now number) (by_hand h (F.state files.old))
        (by_hand h (F.state files.new)) result }
{
    let name = entry_name(alloc, &Entry::Number(number))?;
    sync(alloc, run, files, place, &name)
}

/// The held name of one goes.
fn drop_one<F: Files>(
    alloc: Global,
    run: u128,
    files: &mut F,
    place: &Place,
    one: &Move,
) -> Result<(), PlanFault>
    ensures { (h : Hand)
        → Follows run plan_cause (removed place.now (aside_name run one.now.from)) (by_hand h (F.state files.old))
        (by_hand h (F.state files.new)) result }
{
    let held = name_aside(alloc, run, one.from)?;
    unlink(alloc, run, files, place, &held)
}

/// The held names of these go, one after another.
fn drop_all<F: Files>(
    alloc: Global,
    run: u128,
    files: &mut F,
    place: &Place,
    moves: &[Move],
) -> Result<(), PlanFault>
    ensures { (h : Hand)
        → Follows run plan_cause (all_dropped run place.now moves.now) (by_hand h (F.state files.old))
        (by_hand h (F.state files.new)) result }
{
    for one in moves {
        drop_one(alloc, run, files, place, one)?;
    }
    Ok(())
}

/// The held names go, and that they are gone is made safe.
fn drop_for_good<F: Files>(
    alloc: Global,
    run: u128,
    files: &mut F,
    place: &Place,
    moves: &[Move],
    number: MsgNum,
) -> Result<(), PlanFault>
    ensures { (h : Hand)
        → Follows run plan_cause (dropped_for_good run place.now moves.now number) (by_hand h (F.state files.old))
        (by_hand h (F.state files.new)) result }
{
    drop_all(alloc, run, files, place, moves)?;
    sync_at(alloc, run, files, place, number)
}

/// The new numbers are made safe before the held names go.
fn drop_safely<F: Files>(
    alloc: Global,
    run: u128,
    files: &mut F,
    place: &Place,
    moves: &[Move],
    number: MsgNum,
) -> Result<(), PlanFault>
    ensures { (h : Hand)
        → Follows run plan_cause (dropped_safely run place.now moves.now number) (by_hand h (F.state files.old))
        (by_hand h (F.state files.new)) result }
{
    sync_at(alloc, run, files, place, number)?;
    drop_for_good(alloc, run, files, place, moves, number)
}

/// Messages that were given these numbers are held no longer; where none was given one nothing is to be done.
pub(crate) fn let_go<F: Files>(
    alloc: Global,
    run: u128,
    files: &mut F,
    place: &Place,
    moves: &[Move],
    ends: &[MsgNum],
) -> Result<(), PlanFault>
    ensures { (h : Hand)
        → Follows run plan_cause (let_go_after run place.now moves.now ends.now) (by_hand h (F.state files.old))
        (by_hand h (F.state files.new)) result }
{
    match ends.last() {
        Some(number) => drop_safely(alloc, run, files, place, moves, *number),
        None => Ok(()),
    }
}
