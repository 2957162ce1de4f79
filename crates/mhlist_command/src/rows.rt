// The rows of messages, one message after another.
ghost use Rattle.std.specs.Prelude.{◌≡◌, ℕ, IfOk};
ghost use Rattle.mh_base.specs.Entries.{entry_text};
ghost use Rattle.folder_files.specs.Story.{FilesState};
ghost use Rattle.file_plans.specs.Plan.{Hand as Kept};
ghost use Rattle.file_plans.specs.Follows.{Follows, by_out};
ghost use Rattle.step_plans.specs.CommandFaults.{command_cause};
ghost use Rattle.mhlist_plans.specs.Listing.{all_listed, header_said, listed_by, no_part as no_part_of, one_listed, rows_said};

use command_stages::LIMIT;
use file_plans::{Reading, ask_read};
use folder_files::{Files, Place, Refusal};
use mh_base::{Duplicate, Entry, List, MsgNum, Sink, entry_name};
use mime_tree::PartPath;
use part_rows::{MessageParts, header_line, shown_path};
use std::alloc::{AllocError, Global};
use step_plans::CommandFault;
use told_folders::say_lines;

/// Writes the line above all rows.
pub(crate) fn say_header<O: Sink>(alloc: Global, out: &mut O) -> Result<(), CommandFault>
    ensures { (run : ℕ) (h : Kept) (f : FilesState)
        → Follows run command_cause header_said (by_out h f (O.state out.old)) (by_out h f (O.state out.new)) result }
{
    let mut lines = List::new(alloc);
    lines.push(header_line(alloc)?)?;
    say_lines(out, lines.as_slice())
}

/// The refusal of a part that is not there.
pub fn no_part(alloc: Global, path: &PartPath) -> Result<CommandFault, AllocError>
    ensures { IfOk result (λ fault. fault ≡ no_part_of path.now) }
{
    let word = shown_path(alloc, path)?;
    Ok(CommandFault::Refused(Refusal::NoPart(word)))
}

/// How a command ends where a message is not there any more.
pub fn message_gone(
    alloc: Global,
    place: &Place,
    number: MsgNum,
) -> Result<CommandFault, AllocError>
    ensures { IfOk result (λ fault. fault ≡ CommandFault.Meddled place.now (entry_text (Entry.Number number))) }
{
    let name = entry_name(alloc, &Entry::Number(number))?;
    Ok(CommandFault::Meddled(place.duplicate(alloc)?, name))
}

/// Writes the rows of a message, where it has all parts that are wanted.
fn say_rows<O: Sink>(
    alloc: Global,
    out: &mut O,
    wanted: &[PartPath],
    number: MsgNum,
    message: &[u8],
) -> Result<(), CommandFault>
    ensures { (run : ℕ) (h : Kept) (f : FilesState)
        → Follows run command_cause (rows_said wanted.now number message.now) (by_out h f (O.state out.old))
        (by_out h f (O.state out.new)) result }
{
    let parts = MessageParts::cut(alloc, message)?;
    match parts.first_missing(wanted) {
        None => {
            let rows = parts.rows(alloc, number, wanted)?;
            say_lines(out, rows.as_slice())
        }
        Some(path) => Err(no_part(alloc, path)?),
    }
}

/// Writes the rows of a message, by what reading it gave.
fn list<O: Sink>(
    alloc: Global,
    out: &mut O,
    wanted: &[PartPath],
    place: &Place,
    number: MsgNum,
    reading: Reading,
) -> Result<(), CommandFault>
    ensures { (run : ℕ) (h : Kept) (f : FilesState)
        → Follows run command_cause (listed_by wanted.now place.now number reading) (by_out h f (O.state out.old))
        (by_out h f (O.state out.new)) result }
{
    match reading {
        Reading::Content(bytes) => say_rows(alloc, out, wanted, number, bytes.as_slice()),
        Reading::Long(length) => Err(CommandFault::Refused(Refusal::TooLarge {
            length,
            limit: LIMIT,
        })),
        Reading::Gone => Err(message_gone(alloc, place, number)?),
    }
}

fn list_one<F: Files, O: Sink>(
    alloc: Global,
    run: u128,
    files: &mut F,
    out: &mut O,
    wanted: &[PartPath],
    place: &Place,
    number: MsgNum,
) -> Result<(), CommandFault>
    ensures { (h : Kept)
        → Follows run command_cause (one_listed wanted.now place.now number)
        (by_out h (F.state files.old) (O.state out.old)) (by_out h (F.state files.new) (O.state out.new)) result }
{
    let name = entry_name(alloc, &Entry::Number(number))?;
    let reading = ask_read(alloc, run, files, place, &name, LIMIT)?;
    list(alloc, out, wanted, place, number, reading)
}

/// Writes the rows of these messages.
pub(crate) fn list_all<F: Files, O: Sink>(
    alloc: Global,
    run: u128,
    files: &mut F,
    out: &mut O,
    wanted: &[PartPath],
    place: &Place,
    numbers: &[MsgNum],
) -> Result<(), CommandFault>
    ensures { (h : Kept)
        → Follows run command_cause (all_listed wanted.now place.now numbers.now)
        (by_out h (F.state files.old) (O.state out.old)) (by_out h (F.state files.new) (O.state out.new)) result }
{
    for number in numbers {
        list_one(alloc, run, files, out, wanted, place, *number)?;
    }
    Ok(())
}
