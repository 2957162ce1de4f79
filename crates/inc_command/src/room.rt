// Whether the folder has numbers for all messages of a drop.
ghost use Rattle.std.specs.Prelude.{◌+◌, ◌≤◌, ℕ, nat_le};
ghost use Rattle.file_plans.specs.Follows.{State, Follows};
ghost use Rattle.step_plans.specs.CommandFaults.{command_cause};
ghost use Rattle.command_stages.specs.Endings.{if_room};

use folder_files::Refusal;
use mh_base::{Duplicate, FolderName};
use std::alloc::Global;
use step_plans::CommandFault;

/// The highest number of a message.
const LAST: u32 = 999_999;

/// Asks that so many numbers are free above the highest one.
pub fn ask_room(
    alloc: Global,
    folder: &FolderName,
    highest: u32,
    messages: u64,
) -> Result<(), CommandFault>
    requires { highest ≤ 999999 }
    ensures { (run : ℕ) (x : State)
        → Follows run command_cause (if_room (nat_le (highest + messages) 999999) folder.now) x x result }
{
    if messages > u64::from(LAST - highest) {
        return Err(CommandFault::Refused(Refusal::Full(folder.duplicate(alloc)?)));
    }
    Ok(())
}
