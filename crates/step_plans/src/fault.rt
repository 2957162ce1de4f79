// How a plan ends early.
ghost use Rattle.std.specs.Prelude.{◌≡◌};

use file_plans::Stop;
use folder_files::Place;
use mh_base::Name;
use std::alloc::AllocError;

/// Why a plan is not done.
#[derive(Drop)]
pub enum PlanFault {
    /// The files failed; their count of faults rose.
    Faulted,
    /// Another run holds the lock of this place.
    Locked(Place),
    /// A name that this run made or saw was changed meanwhile.
    Meddled(Place, Name),
    /// A number above 999,999 is needed.
    Full,
    /// There is no such place.
    Absent(Place),
    /// A text of this length is neither read nor written.
    TooLarge(u64),
    Memory,
}

impl From<AllocError> for PlanFault {
    ghost use Rattle.step_plans.specs.declared.fault.PlanFault.TheVariants.{Memory};

    ghost from_gives = { λ _ e. e ≡ Memory };

    fn from(_: AllocError) -> Self {
        PlanFault::Memory
    }
}

impl From<Stop> for PlanFault {
    ghost use Rattle.step_plans.specs.PlanFaults.{of_stop};

    ghost from_gives = { λ stop fault. fault ≡ of_stop stop };

    fn from(stop: Stop) -> Self {
        match stop {
            Stop::Failed => PlanFault::Faulted,
            Stop::Memory => PlanFault::Memory,
        }
    }
}
