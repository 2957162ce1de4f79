// Copies of messages go to other folders.
ghost use Rattle.std.specs.Prelude.{◌≡◌, [], OnOk};
ghost use Rattle.file_plans.specs.Plan.{lifted};
ghost use Rattle.file_plans.specs.Follows.{Follows, by_hand};
ghost use Rattle.step_plans.specs.CommandFaults.{command_cause};
ghost use Rattle.message_puts.specs.Putting.{message_stored};
ghost use Rattle.command_stages.specs.Endings.{of_plan};
ghost use Rattle.message_moves.specs.Copying.{copied_to, copied_to_all, highest_of, message_copied, messages_copied};

use crate::destination::{Destination, DestinationList, highest};
use crate::origin::{Origin, content_in};
use command_stages::fault_in;
use folder_files::Files;
use message_puts::store;
use mh_base::{Bytes, Duplicate, Entry, MsgNum, entry_name};
use std::alloc::Global;
use step_plans::{CommandFault, Hand};

/// A message with these bytes is put into the destination, which is made safe.
fn store_in<F: Files>(
    alloc: Global,
    hand: &mut Hand,
    files: &mut F,
    destination: &Destination,
    bytes: &mut Bytes,
) -> Result<MsgNum, CommandFault>
    ensures plan { Follows hand.old.run command_cause
        (lifted (of_plan destination.now.folder)
        (message_stored hand.old.run destination.now.place (highest_of destination.now.highest) bytes.old))
        (by_hand hand.old.kept (F.state files.old)) (by_hand hand.new.kept (F.state files.new)) result }
    ensures same { (hand.new.run ≡ hand.old.run) × (hand.new.mail ≡ hand.old.mail) }
    ensures bytes { OnOk result (bytes.new ≡ bytes.old) }
{
    let folder = destination.folder.duplicate(alloc)?;
    let top = highest(destination);
    match store(alloc, hand, files, &destination.place, top, bytes) {
        Ok(number) => Ok(number),
        Err(fault) => Err(fault_in(folder, fault)),
    }
}

/// A message with these bytes is put into the destination and made safe there; so the destination is then.
fn copy_to<F: Files>(
    alloc: Global,
    hand: &mut Hand,
    files: &mut F,
    destination: &Destination,
    bytes: &mut Bytes,
) -> Result<Destination, CommandFault>
    ensures plan { Follows hand.old.run command_cause (copied_to hand.old.run bytes.old destination.now)
        (by_hand hand.old.kept (F.state files.old)) (by_hand hand.new.kept (F.state files.new)) result }
    ensures same { (hand.new.run ≡ hand.old.run) × (hand.new.mail ≡ hand.old.mail) }
    ensures bytes { OnOk result (bytes.new ≡ bytes.old) }
{
    let folder = destination.folder.duplicate(alloc)?;
    let place = destination.place.duplicate(alloc)?;
    let number = store_in(alloc, hand, files, destination, bytes)?;
    Ok(Destination {
        folder,
        place,
        highest: Some(number),
    })
}

/// The same for each of these, one after another.
pub(crate) fn copy_to_all<F: Files>(
    alloc: Global,
    hand: &mut Hand,
    files: &mut F,
    destinations: &[Destination],
    mut bytes: Bytes,
) -> Result<DestinationList, CommandFault>
    ensures plan { Follows hand.old.run command_cause (copied_to_all hand.old.run bytes destinations.now [])
        (by_hand hand.old.kept (F.state files.old)) (by_hand hand.new.kept (F.state files.new)) result }
    ensures same { (hand.new.run ≡ hand.old.run) × (hand.new.mail ≡ hand.old.mail) }
{
    let mut later = DestinationList::new(alloc);
    for destination in destinations {
        let one = copy_to(alloc, hand, files, destination, &mut bytes)?;
        later.push(one)?;
    }
    Ok(later)
}

/// The message of this number is read and copied to each destination; it keeps its number.
fn copy_message<F: Files>(
    alloc: Global,
    hand: &mut Hand,
    files: &mut F,
    origin: Origin,
    number: MsgNum,
    destinations: &[Destination],
) -> Result<DestinationList, CommandFault>
    ensures plan { Follows hand.old.run command_cause
        (message_copied hand.old.run origin.entry.folder.now origin.entry.place.now number destinations.now)
        (by_hand hand.old.kept (F.state files.old)) (by_hand hand.new.kept (F.state files.new)) result }
    ensures same { (hand.new.run ≡ hand.old.run) × (hand.new.mail ≡ hand.old.mail) }
{
    let name = entry_name(alloc, &Entry::Number(number))?;
    let bytes = content_in(alloc, hand.run(), files, origin, &name)?;
    copy_to_all(alloc, hand, files, destinations, bytes)
}

/// The messages of these numbers are copied to each destination, one after another; they keep their numbers. What comes
/// back are the destinations with their highest numbers then.
pub fn copy_messages<F: Files>(
    alloc: Global,
    hand: &mut Hand,
    files: &mut F,
    origin: Origin,
    numbers: &[MsgNum],
    destinations: DestinationList,
) -> Result<DestinationList, CommandFault>
    ensures plan { Follows hand.old.run command_cause
        (messages_copied hand.old.run origin.entry.folder.now origin.entry.place.now numbers.now destinations)
        (by_hand hand.old.kept (F.state files.old)) (by_hand hand.new.kept (F.state files.new)) result }
    ensures same { (hand.new.run ≡ hand.old.run) × (hand.new.mail ≡ hand.old.mail) }
{
    let mut later = destinations;
    for number in numbers {
        later = copy_message(alloc, hand, files, origin, *number, later.as_slice())?;
    }
    Ok(later)
}
