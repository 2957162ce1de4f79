// Messages that are held aside are given their new numbers.
ghost use Rattle.std.specs.Prelude.{◌≡◌, ◌≤◌, [], max, IfOk};
ghost use Rattle.file_plans.specs.Plan.{Hand};
ghost use Rattle.file_plans.specs.Follows.{Follows, by_hand};
ghost use Rattle.step_plans.specs.PlanFaults.{plan_cause};
ghost use Rattle.message_places.specs.Arranging.{all_given, aside_name, given};

use crate::moves::Move;
use folder_files::{Files, Place};
use held_messages::link_home;
use mh_base::{Entry, List, MsgNum, Name, entry_name};
use std::alloc::{AllocError, Global};
use step_plans::PlanFault;

/// The name under which a run holds the message of this number aside.
pub(crate) fn name_aside(alloc: Global, run: u128, number: MsgNum) -> Result<Name, AllocError>
    ensures { IfOk result (λ name. name ≡ aside_name run number) }
{
    entry_name(alloc, &Entry::Held(run, number))
}

/// The highest number, once one more is taken.
fn higher(number: MsgNum, highest: u32) -> u32
    requires { highest ≤ 999999 }
    ensures value { result ≡ max number highest }
    ensures range { result ≤ 999999 }
{
    number.get().max(highest)
}

/// A message that is held aside is given its slot, or where that is taken the first free number above it and the
/// highest; which number that is.
fn give<F: Files>(
    alloc: Global,
    run: u128,
    files: &mut F,
    place: &Place,
    one: &Move,
    highest: u32,
) -> Result<MsgNum, PlanFault>
    requires { highest ≤ 999999 }
    ensures { (h : Hand)
        → Follows run plan_cause (given run place.now one.now highest) (by_hand h (F.state files.old))
        (by_hand h (F.state files.new)) result }
{
    let held = name_aside(alloc, run, one.from)?;
    match link_home(alloc, run, files, place, &held, one.slot, highest)? {
        Some(number) => Ok(number),
        None => Err(PlanFault::Full),
    }
}

/// Each of these is given its slot, or else a number above the highest, one after another; which numbers these are.
pub(crate) fn give_all<F: Files>(
    alloc: Global,
    run: u128,
    files: &mut F,
    place: &Place,
    moves: &[Move],
    highest: u32,
) -> Result<List<MsgNum>, PlanFault>
    requires { highest ≤ 999999 }
    ensures { (h : Hand)
        → Follows run plan_cause (all_given run place.now moves.now highest []) (by_hand h (F.state files.old))
        (by_hand h (F.state files.new)) result }
{
    let mut ends = List::new(alloc);
    let mut top = highest;
    for one in moves {
        let end = give(alloc, run, files, place, one, top)?;
        top = higher(end, top);
        ends.push(end)?;
    }
    Ok(ends)
}
