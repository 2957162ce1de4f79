// The lock of a directory.
ghost use Rattle.std.specs.Prelude.{◌≡◌, ◌-◌};
ghost use Rattle.file_plans.specs.Plan.{Hand};
ghost use Rattle.file_plans.specs.Follows.{Follows, by_hand};
ghost use Rattle.step_plans.specs.Locking.{locked, let_go as let_go_plan};
ghost use Rattle.step_plans.specs.PlanFaults.{plan_cause};

use crate::PlanFault;
use crate::meddling::place_gone;
use file_plans::{Locking, ask_lock, ask_unlock};
use folder_files::{Files, Place};
use mh_base::Duplicate;
use std::alloc::Global;

/// This run holds the directory's lock, after at most so many tries.
pub fn lock<F: Files>(
    alloc: Global,
    run: u128,
    files: &mut F,
    place: &Place,
    tries: u64,
) -> Result<(), PlanFault>
    ensures { (h : Hand)
        → Follows run plan_cause (locked place.now tries) (by_hand h (F.state files.old))
        (by_hand h (F.state files.new)) result }
{
    for at in 0..tries {
        match ask_lock(alloc, run, files, place)? {
            Locking::Done => return Ok(()),
            Locking::Busy => {}
            Locking::Gone => return Err(place_gone(alloc, place)?),
        }
    }
    Err(PlanFault::Locked(place.duplicate(alloc)?))
}

/// The lock falls; where that fails the plan ends.
pub fn let_go<F: Files>(
    alloc: Global,
    run: u128,
    files: &mut F,
    place: &Place,
) -> Result<(), PlanFault>
    ensures { (h : Hand)
        → Follows run plan_cause (let_go_plan place.now) (by_hand h (F.state files.old))
        (by_hand h (F.state files.new)) result }
{
    ask_unlock(alloc, run, files, place)?;
    Ok(())
}
