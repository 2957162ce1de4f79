// The parts of a message are stored.
ghost use Rattle.std.specs.Prelude.{◌≡◌, ℕ, map};
ghost use Rattle.folder_files.specs.Story.{FilesState};
ghost use Rattle.file_plans.specs.Plan.{Hand as Kept, lifted};
ghost use Rattle.file_plans.specs.Follows.{Follows, by_hand, by_out};
ghost use Rattle.step_plans.specs.CommandFaults.{command_cause};
ghost use Rattle.command_stages.specs.Endings.{of_plan};
ghost use Rattle.part_rows.specs.FileNames.{file_of};
ghost use Rattle.part_rows.specs.PartViews.{view_of};
ghost use Rattle.mhstore_plans.specs.Files.{file_stored};
ghost use Rattle.mhstore_plans.specs.Storing.{all_filed, one_filed, parts_filed, told_by};

use crate::StoreJob;
use crate::linking::store_file;
use command_stages::fault_in;
use file_plans::say;
use folder_files::{Files, Refusal};
use mh_base::{Bytes, Duplicate, MsgNum, Name, Sink};
use mhlist_command::no_part;
use mime_tree::Part;
use part_rows::{MessageParts, file_name, storing_line};
use std::alloc::Global;
use step_plans::{CommandFault, Hand};

/// A file with these bytes is stored under this name, and whether it was.
fn store_in<F: Files>(
    alloc: Global,
    hand: &mut Hand,
    files: &mut F,
    job: &StoreJob,
    name: &Name,
    bytes: &mut Bytes,
) -> Result<bool, CommandFault>
    ensures plan { Follows hand.old.run command_cause
        (lifted (of_plan job.now.folder) (file_stored hand.old.run job.now.clobber name.now bytes.old))
        (by_hand hand.old.kept (F.state files.old)) (by_hand hand.new.kept (F.state files.new)) result }
    ensures same { (hand.new.run ≡ hand.old.run) × (hand.new.mail ≡ hand.old.mail) }
{
    let folder = job.folder.duplicate(alloc)?;
    match store_file(alloc, hand, files, job.clobber, name, bytes) {
        Ok(free) => Ok(free),
        Err(fault) => Err(fault_in(folder, fault)),
    }
}

/// Writes the line of a file that was stored. One whose name was taken is refused.
fn tell<O: Sink>(out: &mut O, name: Name, line: &Bytes, free: bool) -> Result<(), CommandFault>
    ensures { (run : ℕ) (h : Kept) (f : FilesState)
        → Follows run command_cause (told_by name line.now free) (by_out h f (O.state out.old))
        (by_out h f (O.state out.new)) result }
{
    if free {
        say(out, line.as_slice())?;
        Ok(())
    } else {
        Err(CommandFault::Refused(Refusal::WouldReplace(name)))
    }
}

/// A part of the message of this number is stored, and the line of its file is written.
fn store_part<F: Files, O: Sink>(
    alloc: Global,
    hand: &mut Hand,
    files: &mut F,
    out: &mut O,
    job: &StoreJob,
    number: MsgNum,
    message: &MessageParts<'_>,
    part: &Part,
) -> Result<(), CommandFault>
    ensures plan { Follows hand.old.run command_cause
        (one_filed hand.old.run job.now (file_of number (view_of message.now part.now)))
        (by_out hand.old.kept (F.state files.old) (O.state out.old))
        (by_out hand.new.kept (F.state files.new) (O.state out.new)) result }
    ensures same { (hand.new.run ≡ hand.old.run) × (hand.new.mail ≡ hand.old.mail) }
{
    let name = file_name(alloc, number, part)?;
    let line = storing_line(alloc, number, part, &name)?;
    let mut content = message.content(alloc, part)?;
    let free = store_in(alloc, hand, files, job, &name, &mut content)?;
    tell(out, name, &line, free)
}

/// These parts of the message of this number, one after another.
fn store_parts<F: Files, O: Sink>(
    alloc: Global,
    hand: &mut Hand,
    files: &mut F,
    out: &mut O,
    job: &StoreJob,
    number: MsgNum,
    message: &MessageParts<'_>,
    parts: &[&Part],
) -> Result<(), CommandFault>
    ensures plan { Follows hand.old.run command_cause
        (all_filed hand.old.run job.now (map (λ p. file_of number (view_of message.now p.now)) parts.now))
        (by_out hand.old.kept (F.state files.old) (O.state out.old))
        (by_out hand.new.kept (F.state files.new) (O.state out.new)) result }
    ensures same { (hand.new.run ≡ hand.old.run) × (hand.new.mail ≡ hand.old.mail) }
{
    for part in parts {
        store_part(alloc, hand, files, out, job, number, message, part)?;
    }
    Ok(())
}

/// The parts of a message are stored, where it has all that are wanted.
pub(crate) fn store_message<F: Files, O: Sink>(
    alloc: Global,
    hand: &mut Hand,
    files: &mut F,
    out: &mut O,
    job: &StoreJob,
    number: MsgNum,
    message: &[u8],
) -> Result<(), CommandFault>
    ensures plan { Follows hand.old.run command_cause (parts_filed hand.old.run job.now number message.now)
        (by_out hand.old.kept (F.state files.old) (O.state out.old))
        (by_out hand.new.kept (F.state files.new) (O.state out.new)) result }
    ensures same { (hand.new.run ≡ hand.old.run) × (hand.new.mail ≡ hand.old.mail) }
{
    let message = MessageParts::cut(alloc, message)?;
    match message.first_missing(job.parts.as_slice()) {
        None => {
            let parts = message.stored(alloc, job.parts.as_slice())?;
            store_parts(
                alloc,
                hand,
                files,
                out,
                job,
                number,
                &message,
                parts.as_slice(),
            )
        }
        Some(path) => Err(no_part(alloc, path)?),
    }
}
