// How a call ends.
ghost use Rattle.std.specs.Prelude.{◌≡◌};
ghost use Rattle.mh_tools.specs.Status.{exit_of_status};

use folder_files::{Place, Refusal, Which};
use mh_base::Name;
use step_plans::CommandFault;

/// How a command ended.
#[derive(Drop)]
pub enum Status {
    Done,
    Refused(Refusal),
    /// One of its surroundings failed; that one's count of faults rose.
    Faulted(Which),
    /// Another run holds the lock of this place.
    Locked(Place),
    /// A name that this run made or saw was changed meanwhile.
    Meddled(Place, Name),
    NoMemory,
}

impl Status {
    /// The exit status of the program: 0 to 5 in the order of the variants.
    pub fn exit(&self) -> u8
        ensures { result ≡ exit_of_status self.now }
    {
        match self {
            Status::Done => 0,
            Status::Refused(_) => 1,
            Status::Faulted(_) => 2,
            Status::Locked(_) => 3,
            Status::Meddled(_, _) => 4,
            Status::NoMemory => 5,
        }
    }
}

impl From<CommandFault> for Status {
    ghost use Rattle.mh_tools.specs.Status.{fault_status};

    ghost from_gives = { λ fault status. status ≡ fault_status fault };

    fn from(fault: CommandFault) -> Self {
        match fault {
            CommandFault::Refused(refusal) => Status::Refused(refusal),
            CommandFault::Faulted(which) => Status::Faulted(which),
            CommandFault::Locked(place) => Status::Locked(place),
            CommandFault::Meddled(place, name) => Status::Meddled(place, name),
            CommandFault::Memory => Status::NoMemory,
        }
    }
}
