// How a plan's fault ends a command.
ghost use Rattle.std.specs.Prelude.{◌≡◌};
ghost use Rattle.command_stages.specs.Endings.{of_plan};

use crate::LIMIT;
use folder_files::{Refusal, Which};
use mh_base::FolderName;
use step_plans::{CommandFault, PlanFault};

/// What a fault of a plan on this folder is to the command.
pub fn fault_in(folder: FolderName, fault: PlanFault) -> CommandFault
    ensures { result ≡ of_plan folder fault }
{
    match fault {
        PlanFault::Faulted => CommandFault::Faulted(Which::Files),
        PlanFault::Locked(place) => CommandFault::Locked(place),
        PlanFault::Meddled(place, name) => CommandFault::Meddled(place, name),
        PlanFault::Full => CommandFault::Refused(Refusal::Full(folder)),
        PlanFault::Absent(_) => CommandFault::Refused(Refusal::NoFolder(folder)),
        PlanFault::TooLarge(length) => CommandFault::Refused(Refusal::TooLarge {
            length,
            limit: LIMIT,
        }),
        PlanFault::Memory => CommandFault::Memory,
    }
}
