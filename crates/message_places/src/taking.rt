// All messages that change places are held aside.
ghost use Rattle.file_plans.specs.Plan.{Hand};
ghost use Rattle.file_plans.specs.Follows.{Follows, by_hand};
ghost use Rattle.step_plans.specs.PlanFaults.{plan_cause};
ghost use Rattle.message_places.specs.Arranging.{all_taken};

use folder_files::{Files, Place};
use message_moves::take;
use mh_base::MsgNum;
use std::alloc::Global;
use step_plans::PlanFault;

/// The messages of these numbers are held aside, one after another. A number was changed meanwhile where nothing stands
/// there.
pub(crate) fn take_all<F: Files>(
    alloc: Global,
    run: u128,
    files: &mut F,
    place: &Place,
    numbers: &[MsgNum],
) -> Result<(), PlanFault>
    ensures { (h : Hand)
        → Follows run plan_cause (all_taken run place.now numbers.now) (by_hand h (F.state files.old))
        (by_hand h (F.state files.new)) result }
{
    for number in numbers {
        take(alloc, run, files, place, *number)?;
    }
    Ok(())
}
