// Messages of one folder change places.
ghost use Rattle.std.specs.Prelude.{◌≤◌};
ghost use Rattle.file_plans.specs.Plan.{Hand};
ghost use Rattle.file_plans.specs.Follows.{Follows, by_hand};
ghost use Rattle.step_plans.specs.PlanFaults.{plan_cause};
ghost use Rattle.message_places.specs.Arranging.{arranged};

use crate::giving::give_all;
use crate::letting_go::let_go;
use crate::moves::Move;
use crate::taking::take_all;
use folder_files::{Files, Place};
use mh_base::{List, MsgNum};
use std::alloc::Global;
use step_plans::PlanFault;

/// The messages of the numbers in `takes` are held aside, each move's message is then given its slot, or where that is
/// taken a number above the highest, and once all are safe there they are held no longer. It answers where each ended,
/// one number a move. The moves are of numbers in `takes`; `highest` is the highest number of the folder.
pub fn arrange<F: Files>(
    alloc: Global,
    run: u128,
    files: &mut F,
    place: &Place,
    takes: &[MsgNum],
    moves: &[Move],
    highest: u32,
) -> Result<List<MsgNum>, PlanFault>
    requires { highest ≤ 999999 }
    ensures { (h : Hand)
        → Follows run plan_cause (arranged run place.now takes.now moves.now highest) (by_hand h (F.state files.old))
        (by_hand h (F.state files.new)) result }
{
    take_all(alloc, run, files, place, takes)?;
    let ends = give_all(alloc, run, files, place, moves, highest)?;
    let_go(alloc, run, files, place, moves, ends.as_slice())?;
    Ok(ends)
}
