// A message that was held aside is let go.
ghost use Rattle.file_plans.specs.Plan.{Hand};
ghost use Rattle.file_plans.specs.Follows.{Follows, by_hand};
ghost use Rattle.step_plans.specs.PlanFaults.{plan_cause};
ghost use Rattle.message_moves.specs.Moving.{held_discarded};

use folder_files::{Files, Place};
use mh_base::Name;
use std::alloc::Global;
use step_plans::{PlanFault, sync, unlink};

/// The held name goes, and that it is gone is made safe, so that no crash brings it back. It was changed meanwhile
/// where it is gone already.
pub fn discard<F: Files>(
    alloc: Global,
    run: u128,
    files: &mut F,
    place: &Place,
    held: &Name,
) -> Result<(), PlanFault>
    ensures { (h : Hand)
        → Follows run plan_cause (held_discarded place.now held.now) (by_hand h (F.state files.old))
        (by_hand h (F.state files.new)) result }
{
    unlink(alloc, run, files, place, held)?;
    sync(alloc, run, files, place, held)
}
