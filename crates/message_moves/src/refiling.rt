// Messages leave their folder for others.
ghost use Rattle.std.specs.Prelude.{◌≡◌};
ghost use Rattle.file_plans.specs.Follows.{Follows, by_hand};
ghost use Rattle.step_plans.specs.CommandFaults.{command_cause};
ghost use Rattle.message_moves.specs.Refiling.{message_refiled, messages_refiled};

use crate::copying::copy_to_all;
use crate::destination::{Destination, DestinationList};
use crate::origin::{Origin, content_in, discard_in, take_in};
use folder_files::Files;
use mh_base::MsgNum;
use std::alloc::Global;
use step_plans::{CommandFault, Hand};

/// The message of this number is held aside, copied to each destination, and let go once all copies are safe. Where
/// there is no destination it stays.
fn refile_message<F: Files>(
    alloc: Global,
    hand: &mut Hand,
    files: &mut F,
    origin: Origin,
    number: MsgNum,
    destinations: &[Destination],
) -> Result<DestinationList, CommandFault>
    ensures plan { Follows hand.old.run command_cause
        (message_refiled hand.old.run origin.entry.folder.now origin.entry.place.now number destinations.now)
        (by_hand hand.old.kept (F.state files.old)) (by_hand hand.new.kept (F.state files.new)) result }
    ensures same { (hand.new.run ≡ hand.old.run) × (hand.new.mail ≡ hand.old.mail) }
{
    if destinations.is_empty() {
        return Ok(DestinationList::new(alloc));
    }
    let run = hand.run();
    let held = take_in(alloc, run, files, origin, number)?;
    let bytes = content_in(alloc, run, files, origin, &held)?;
    let later = copy_to_all(alloc, hand, files, destinations, bytes)?;
    discard_in(alloc, run, files, origin, &held)?;
    Ok(later)
}

/// The messages of these numbers leave the folder for the destinations, one after another: each is held aside, copied
/// to each destination, and let go once all copies are safe. What comes back are the destinations with their highest
/// numbers then.
pub fn refile_messages<F: Files>(
    alloc: Global,
    hand: &mut Hand,
    files: &mut F,
    origin: Origin,
    numbers: &[MsgNum],
    destinations: DestinationList,
) -> Result<DestinationList, CommandFault>
    ensures plan { Follows hand.old.run command_cause
        (messages_refiled hand.old.run origin.entry.folder.now origin.entry.place.now numbers.now destinations)
        (by_hand hand.old.kept (F.state files.old)) (by_hand hand.new.kept (F.state files.new)) result }
    ensures same { (hand.new.run ≡ hand.old.run) × (hand.new.mail ≡ hand.old.mail) }
{
    let mut later = destinations;
    for number in numbers {
        later = refile_message(alloc, hand, files, origin, *number, later.as_slice())?;
    }
    Ok(later)
}
