// How a command ends before its end.
ghost use Rattle.std.specs.Prelude.{◌≡◌};

use file_plans::Stop;
use folder_files::{Place, Refusal, Which};
use mh_base::{Name, SinkFault};
use std::alloc::AllocError;

/// Why a command is not done.
#[derive(Drop)]
pub enum CommandFault {
    Refused(Refusal),
    /// One of its surroundings failed; that one's count of faults rose.
    Faulted(Which),
    /// Another run holds the lock of this place.
    Locked(Place),
    /// A name that this run made or saw was changed meanwhile.
    Meddled(Place, Name),
    Memory,
}

impl From<AllocError> for CommandFault {
    ghost use Rattle.step_plans.specs.declared.command_fault.CommandFault.TheVariants.{Memory};

    ghost from_gives = { λ _ e. e ≡ Memory };

    fn from(_: AllocError) -> Self {
        CommandFault::Memory
    }
}

impl From<Stop> for CommandFault {
    ghost use Rattle.step_plans.specs.CommandFaults.{of_stop};

    ghost from_gives = { λ stop fault. fault ≡ of_stop stop };

    fn from(stop: Stop) -> Self {
        match stop {
            Stop::Failed => CommandFault::Faulted(Which::Files),
            Stop::Memory => CommandFault::Memory,
        }
    }
}

impl From<SinkFault> for CommandFault {
    ghost use Rattle.step_plans.specs.CommandFaults.{of_sink};

    ghost from_gives = { λ sink fault. fault ≡ of_sink sink };

    fn from(fault: SinkFault) -> Self {
        match fault {
            SinkFault::Failed => CommandFault::Faulted(Which::Out),
            SinkFault::Memory => CommandFault::Memory,
        }
    }
}
