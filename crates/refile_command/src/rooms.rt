// Whether the destinations have numbers for all messages.
ghost use Rattle.std.specs.Prelude.{◌+◌, ◌≡◌, ◌≤◌, ℕ, nat_le};
ghost use Rattle.file_plans.specs.Follows.{Follows, State};
ghost use Rattle.step_plans.specs.CommandFaults.{command_cause};
ghost use Rattle.message_moves.specs.Copying.{highest_of};
ghost use Rattle.refile_plans.specs.Refile.{room_in};
ghost use Rattle.command_stages.specs.Endings.{if_room};

use folder_files::Refusal;
use message_moves::Destination;
use mh_base::Duplicate;
use std::alloc::Global;
use step_plans::CommandFault;

/// The highest number of a message.
const LAST: u32 = 999_999;

fn highest(to: &Destination) -> u32
    ensures value { result ≡ highest_of to.now.highest }
    ensures range { result ≤ 999999 }
{
    match to.highest {
        Some(number) => number.get(),
        None => 0,
    }
}

/// So many numbers are free above the highest one of the folder.
fn ask_room_in(alloc: Global, to: &Destination, count: u64) -> Result<(), CommandFault>
    ensures { (run : ℕ) (x : State)
        → Follows run command_cause
        (if_room (nat_le (highest_of to.now.highest + count) 999999) to.now.folder) x x result }
{
    if count > u64::from(LAST - highest(to)) {
        return Err(CommandFault::Refused(Refusal::Full(to.folder.duplicate(alloc)?)));
    }
    Ok(())
}

/// And in each of these; the first that has no room is the one that is refused.
pub(crate) fn ask_room(alloc: Global, to: &[Destination], count: u64) -> Result<(), CommandFault>
    ensures { (run : ℕ) (x : State) → Follows run command_cause (room_in to.now count) x x result }
{
    for one in to {
        ask_room_in(alloc, one, count)?;
    }
    Ok(())
}
