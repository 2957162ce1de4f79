// Texts that are read whole.
ghost use Rattle.std.specs.Prelude.{ℕ};
ghost use Rattle.mh_base.specs.Entries.{entry_text};
ghost use Rattle.mh_base.specs.declared.entry.Entry.TheVariants.{Sequences};
ghost use Rattle.file_plans.specs.Plan.{Hand};
ghost use Rattle.file_plans.specs.Follows.{State, Follows, by_hand};
ghost use Rattle.step_plans.specs.CommandFaults.{command_cause};
ghost use Rattle.command_stages.specs.Texts.{text_by as text_by_plan, text_read as text_read_plan};

use file_plans::{Reading, ask_read};
use folder_files::{Files, Place, Refusal};
use mh_base::{Bytes, Entry, Name, entry_name};
use std::alloc::Global;
use step_plans::CommandFault;

/// The greatest text that is read or written, in bytes.
pub const LIMIT: u64 = 67_108_864;

fn text_from(alloc: Global, reading: Reading) -> Result<Bytes, CommandFault>
    ensures { (run : ℕ) (x : State) → Follows run command_cause (text_by_plan reading) x x result }
{
    match reading {
        Reading::Content(bytes) => Ok(bytes),
        Reading::Long(length) => Err(CommandFault::Refused(Refusal::TooLarge {
            length,
            limit: LIMIT,
        })),
        Reading::Gone => Ok(Bytes::new(alloc)),
    }
}

/// The text of a file; the empty one where there is no such name. A text above the limit is refused.
pub fn read_text<F: Files>(
    alloc: Global,
    run: u128,
    files: &mut F,
    place: &Place,
    name: &Name,
) -> Result<Bytes, CommandFault>
    ensures { (h : Hand)
        → Follows run command_cause (text_read_plan place.now name.now) (by_hand h (F.state files.old))
        (by_hand h (F.state files.new)) result }
{
    let reading = ask_read(alloc, run, files, place, name, LIMIT)?;
    text_from(alloc, reading)
}

/// The text of a folder's sequences; the empty one where there is none.
pub fn read_sequences_text<F: Files>(
    alloc: Global,
    run: u128,
    files: &mut F,
    place: &Place,
) -> Result<Bytes, CommandFault>
    ensures { (h : Hand)
        → Follows run command_cause (text_read_plan place.now (entry_text Sequences)) (by_hand h (F.state files.old))
        (by_hand h (F.state files.new)) result }
{
    let name = entry_name(alloc, &Entry::Sequences)?;
    read_text(alloc, run, files, place, &name)
}
