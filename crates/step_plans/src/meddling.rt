// What answers mean at names that a run itself made or saw.
ghost use Rattle.std.specs.Prelude.{◌≡◌, ℕ, IfOk};
ghost use Rattle.file_plans.specs.Follows.{State, Follows};
ghost use Rattle.step_plans.specs.Locking.{lock_name};
ghost use Rattle.step_plans.specs.PlanFaults.{plan_cause};
ghost use Rattle.step_plans.specs.Replacing.{held_to, entered_once};

use crate::PlanFault;
use file_plans::{Entered, Touched};
use folder_files::Place;
use mh_base::{Duplicate, Entry, Name, entry_name};
use std::alloc::{AllocError, Global};

/// This name was changed meanwhile.
pub fn meddled(alloc: Global, place: &Place, name: &Name) -> Result<PlanFault, AllocError>
    ensures { IfOk result (λ fault. fault ≡ PlanFault.Meddled place.now name.now) }
{
    Ok(PlanFault::Meddled(place.duplicate(alloc)?, name.duplicate(alloc)?))
}

/// This directory is gone.
pub fn place_gone(alloc: Global, place: &Place) -> Result<PlanFault, AllocError>
    ensures { IfOk result (λ fault. fault ≡ PlanFault.Meddled place.now lock_name) }
{
    let name = entry_name(alloc, &Entry::LockFile)?;
    Ok(PlanFault::Meddled(place.duplicate(alloc)?, name))
}

/// Of a name that is there, unless it was changed meanwhile.
pub fn hold_to(alloc: Global, place: &Place, name: &Name, touched: Touched) -> Result<(), PlanFault>
    ensures { (run : ℕ) (x : State) → Follows run plan_cause (held_to place.now name.now touched) x x result }
{
    match touched {
        Touched::Done => Ok(()),
        Touched::Gone => Err(meddled(alloc, place, name)?),
    }
}

/// Of a name that is not yet there, unless it was changed meanwhile.
pub fn enter_once(
    alloc: Global,
    place: &Place,
    name: &Name,
    entered: Entered,
) -> Result<(), PlanFault>
    ensures { (run : ℕ) (x : State) → Follows run plan_cause (entered_once place.now name.now entered) x x result }
{
    match entered {
        Entered::Done => Ok(()),
        Entered::Exists => Err(meddled(alloc, place, name)?),
        Entered::Gone => Err(meddled(alloc, place, name)?),
    }
}
