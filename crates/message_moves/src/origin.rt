// The folder that messages come from, and what is done there with one.
ghost use Rattle.file_plans.specs.Plan.{Hand, lifted};
ghost use Rattle.file_plans.specs.Follows.{Follows, by_hand};
ghost use Rattle.step_plans.specs.CommandFaults.{command_cause};
ghost use Rattle.command_stages.specs.Endings.{of_plan};
ghost use Rattle.message_moves.specs.Moving.{content_read, held_discarded, number_taken};

use crate::discarding::discard;
use crate::reading::content;
use crate::taking::take;
use command_stages::fault_in;
use folder_files::{Files, Place};
use mh_base::{Bytes, Duplicate, FolderName, MsgNum, Name};
use std::alloc::Global;
use step_plans::CommandFault;

/// The folder that messages come from, and where it is.
#[derive(Clone, Copy)]
pub struct Origin<'a> {
    pub folder: &'a FolderName,
    pub place: &'a Place,
}

/// A message of the folder is held aside.
pub(crate) fn take_in<F: Files>(
    alloc: Global,
    run: u128,
    files: &mut F,
    origin: Origin,
    number: MsgNum,
) -> Result<Name, CommandFault>
    ensures { (h : Hand)
        → Follows run command_cause
        (lifted (of_plan origin.entry.folder.now) (number_taken run origin.entry.place.now number))
        (by_hand h (F.state files.old)) (by_hand h (F.state files.new)) result }
{
    let folder = origin.folder.duplicate(alloc)?;
    match take(alloc, run, files, origin.place, number) {
        Ok(held) => Ok(held),
        Err(fault) => Err(fault_in(folder, fault)),
    }
}

/// The bytes of a message of the folder.
pub(crate) fn content_in<F: Files>(
    alloc: Global,
    run: u128,
    files: &mut F,
    origin: Origin,
    name: &Name,
) -> Result<Bytes, CommandFault>
    ensures { (h : Hand)
        → Follows run command_cause
        (lifted (of_plan origin.entry.folder.now) (content_read origin.entry.place.now name.now))
        (by_hand h (F.state files.old)) (by_hand h (F.state files.new)) result }
{
    let folder = origin.folder.duplicate(alloc)?;
    match content(alloc, run, files, origin.place, name) {
        Ok(bytes) => Ok(bytes),
        Err(fault) => Err(fault_in(folder, fault)),
    }
}

/// A message that was held aside in the folder is let go.
pub(crate) fn discard_in<F: Files>(
    alloc: Global,
    run: u128,
    files: &mut F,
    origin: Origin,
    held: &Name,
) -> Result<(), CommandFault>
    ensures { (h : Hand)
        → Follows run command_cause
        (lifted (of_plan origin.entry.folder.now) (held_discarded origin.entry.place.now held.now))
        (by_hand h (F.state files.old)) (by_hand h (F.state files.new)) result }
{
    let folder = origin.folder.duplicate(alloc)?;
    match discard(alloc, run, files, origin.place, held) {
        Ok(()) => Ok(()),
        Err(fault) => Err(fault_in(folder, fault)),
    }
}
