// The sequences of a folder under its lock.
ghost use Rattle.std.specs.Prelude.{◌≡◌, ℕ};
ghost use Rattle.file_plans.specs.Plan.{Hand as KeptValue};
ghost use Rattle.file_plans.specs.Follows.{State, Follows, by_hand};
ghost use Rattle.folder_files.specs.declared.place.Place.TheVariants.{Mail};
ghost use Rattle.step_plans.specs.ContextCommit.{context_read};
ghost use Rattle.step_plans.specs.Hands.{mail_place};
ghost use Rattle.step_plans.specs.PlanFaults.{plan_cause};
ghost use Rattle.opening_plans.specs.Opening.{marks_read, sequences_read, text_by};

use file_plans::{Reading, ask_read};
use folder_files::{Files, Place};
use mh_base::{Bytes, Duplicate, Entry, FolderName, entry_name};
use mh_profile::Entries;
use mh_sequences::Sequences;
use sequence_commits::read_sequences;
use std::alloc::Global;
use step_plans::{Hand, PlanFault, read_context};

/// The greatest text that is read, in bytes.
const LIMIT: u64 = 67_108_864;

fn text_from(alloc: Global, reading: Reading) -> Result<Bytes, PlanFault>
    ensures { (run : ℕ) (x : State) → Follows run plan_cause (text_by reading) x x result }
{
    match reading {
        Reading::Content(bytes) => Ok(bytes),
        Reading::Long(length) => Err(PlanFault::TooLarge(length)),
        Reading::Gone => Ok(Bytes::new(alloc)),
    }
}

/// The text of the folder's sequences; the empty one where there is none.
fn read_text<F: Files>(
    alloc: Global,
    run: u128,
    files: &mut F,
    place: &Place,
) -> Result<Bytes, PlanFault>
    ensures { (h : KeptValue)
        → Follows run plan_cause (sequences_read place.now) (by_hand h (F.state files.old))
        (by_hand h (F.state files.new)) result }
{
    let name = entry_name(alloc, &Entry::Sequences)?;
    let reading = ask_read(alloc, run, files, place, &name, LIMIT)?;
    text_from(alloc, reading)
}

fn read_entries<F: Files>(
    alloc: Global,
    run: u128,
    files: &mut F,
    mail: &Bytes,
) -> Result<Entries, PlanFault>
    ensures { (h : KeptValue)
        → Follows run plan_cause (context_read (Mail mail.now)) (by_hand h (F.state files.old))
        (by_hand h (F.state files.new)) result }
{
    let place = Place::Mail(mail.duplicate(alloc)?);
    read_context(alloc, run, files, &place)
}

/// The folder's sequences, by its text and by the context, whose entries the hand knows from here on.
pub(crate) fn read_marks<F: Files>(
    alloc: Global,
    hand: &mut Hand,
    files: &mut F,
    place: &Place,
    folder: &FolderName,
) -> Result<Sequences, PlanFault>
    ensures plan { Follows hand.old.run plan_cause (marks_read place.now (mail_place hand.old) folder.now)
        (by_hand hand.old.kept (F.state files.old)) (by_hand hand.new.kept (F.state files.new)) result }
    ensures same { (hand.new.run ≡ hand.old.run) × (hand.new.mail ≡ hand.old.mail) }
{
    let text = read_text(alloc, hand.run(), files, place)?;
    let entries = read_entries(alloc, hand.run(), files, hand.mail())?;
    let sequences = read_sequences(alloc, text.as_slice(), &entries, folder)?;
    hand.saw_context(entries);
    Ok(sequences)
}
