// Commits of a folder's sequences.
ghost use Rattle.std.specs.Prelude.{◌≡◌, ℕ, List, Ok, OnOk};
ghost use Rattle.std.specs.List.{All};
ghost use Rattle.mh_profile.specs.Validity.{IsEntry};
ghost use Rattle.mh_sequences.specs.Reading.{suffix};
ghost use Rattle.folder_files.specs.declared.place.Place.TheVariants.{Folder};
ghost use Rattle.file_plans.specs.Follows.{Follows, by_hand};
ghost use Rattle.step_plans.specs.Hands.{mail_place};
ghost use Rattle.step_plans.specs.PlanFaults.{plan_cause};
ghost use Rattle.sequence_commits.specs.CommittedAlone.{CommitsAloneIfTold};
ghost use Rattle.sequence_commits.specs.Committing.{committed_unless, cut_committed, entries_committed, marks_committed, sequences_replaced, told_committed};
ghost use Rattle.sequence_commits.specs.Cutting.{cut_to};
ghost use Rattle.sequence_commits.specs.Marking.{marked_by_all};
ghost use Rattle.sequence_commits.specs.Telling.{tells};

use crate::changes::changes_seen;
use crate::cutting::cut_sequences;
use crate::marking::mark_all;
use crate::telling::Told;
use folder_files::{Files, Place};
use mh_base::{Bytes, Entry, FolderName, entry_name};
use mh_profile::NamedValue;
use mh_sequences::{Mark, NumSet, Sequences};
use std::alloc::Global;
use step_plans::{Hand, PlanFault, commit_context, replace_file};

/// The greatest text that is written, in bytes.
const LIMIT: u64 = 67_108_864;

/// The text takes the place of the folder's, where it is not too long.
fn replace_sequences<F: Files>(
    alloc: Global,
    hand: &mut Hand,
    files: &mut F,
    place: &Place,
    text: &mut Bytes,
) -> Result<(), PlanFault>
    ensures plan { Follows hand.old.run plan_cause (sequences_replaced hand.old.run place.now text.old)
        (by_hand hand.old.kept (F.state files.old)) (by_hand hand.new.kept (F.state files.new)) result }
    ensures same { (hand.new.run ≡ hand.old.run) × (hand.new.mail ≡ hand.old.mail) }
{
    let length = text.len() as u64;
    if LIMIT < length {
        return Err(PlanFault::TooLarge(length));
    }
    let name = entry_name(alloc, &Entry::Sequences)?;
    replace_file(alloc, hand, files, place, &name, text)
}

/// The context says of the folder's private sequences just these entries.
fn commit_entries<F: Files>(
    alloc: Global,
    hand: &mut Hand,
    files: &mut F,
    folder: &FolderName,
    entries: &[NamedValue],
) -> Result<(), PlanFault>
    requires { All IsEntry entries.now }
    ensures plan { Follows hand.old.run plan_cause
        (entries_committed hand.old.run (mail_place hand.old) (suffix folder.now) entries.now)
        (by_hand hand.old.kept (F.state files.old)) (by_hand hand.new.kept (F.state files.new)) result }
    ensures same { (hand.new.run ≡ hand.old.run) × (hand.new.mail ≡ hand.old.mail) }
{
    let changes = changes_seen(alloc, entries, hand, folder)?;
    commit_context(alloc, hand, files, &changes)
}

/// The folder's text, and then the context.
fn commit_told<F: Files>(
    alloc: Global,
    hand: &mut Hand,
    files: &mut F,
    place: &Place,
    folder: &FolderName,
    told: &mut Told,
) -> Result<(), PlanFault>
    requires { All IsEntry told.old.entries }
    ensures plan { Follows hand.old.run plan_cause
        (told_committed hand.old.run place.now (mail_place hand.old) (suffix folder.now) told.old.text told.old.entries)
        (by_hand hand.old.kept (F.state files.old)) (by_hand hand.new.kept (F.state files.new)) result }
    ensures same { (hand.new.run ≡ hand.old.run) × (hand.new.mail ≡ hand.old.mail) }
{
    replace_sequences(alloc, hand, files, place, &mut told.text)?;
    commit_entries(alloc, hand, files, folder, told.entries.as_slice())
}

/// The text and the entries of new sequences, where these are not told already.
fn commit_new<F: Files>(
    alloc: Global,
    hand: &mut Hand,
    files: &mut F,
    place: &Place,
    folder: &FolderName,
    old: Told,
    new: &Sequences,
) -> Result<(), PlanFault>
    ensures plan { Follows hand.old.run plan_cause
        (committed_unless (tells old.text old.entries folder.now new.now) hand.old.run place.now
        (mail_place hand.old) folder.now new.now) (by_hand hand.old.kept (F.state files.old))
        (by_hand hand.new.kept (F.state files.new)) result }
    ensures same { (hand.new.run ≡ hand.old.run) × (hand.new.mail ≡ hand.old.mail) }
{
    let mut new = Told::of(alloc, new, folder)?;
    if old.same(&new) {
        return Ok(());
    }
    commit_told(alloc, hand, files, place, folder, &mut new)
}

/// Does what these marks say with the sequences of a folder, and commits what they are then: the text of the folder at
/// this place, and then the private ones in the context of the run's mail directory, under its lock. No step where the
/// marks change nothing.
pub fn commit_sequences<F: Files>(
    alloc: Global,
    hand: &mut Hand,
    files: &mut F,
    place: &Place,
    folder: &FolderName,
    sequences: &mut Sequences,
    marks: &[Mark],
) -> Result<(), PlanFault>
    ensures plan { Follows hand.old.run plan_cause
        (marks_committed hand.old.run place.now (mail_place hand.old) folder.now sequences.old marks.now)
        (by_hand hand.old.kept (F.state files.old)) (by_hand hand.new.kept (F.state files.new)) result }
    ensures marked { OnOk result (sequences.new ≡ marked_by_all marks.now sequences.old) }
    ensures alone { result ≡ Ok tt → (path name : List ℕ) → place.now ≡ Folder path name
        → CommitsAloneIfTold hand.old.run place.now hand.old.mail folder.now sequences.old
        (marked_by_all marks.now sequences.old) hand.old.kept (F.state files.old).story (F.state files.new).story }
    ensures same { (hand.new.run ≡ hand.old.run) × (hand.new.mail ≡ hand.old.mail) }
{
    let old = Told::of(alloc, sequences, folder)?;
    mark_all(sequences, marks)?;
    commit_new(alloc, hand, files, place, folder, old, sequences)
}

/// Drops the numbers that are not listed from the sequences of a folder, and commits what they are then, as
/// `commit_sequences` does.
pub fn commit_cut<F: Files>(
    alloc: Global,
    hand: &mut Hand,
    files: &mut F,
    place: &Place,
    folder: &FolderName,
    sequences: &mut Sequences,
    listing: &NumSet,
) -> Result<(), PlanFault>
    ensures plan { Follows hand.old.run plan_cause
        (cut_committed hand.old.run place.now (mail_place hand.old) folder.now sequences.old listing.now.runs)
        (by_hand hand.old.kept (F.state files.old)) (by_hand hand.new.kept (F.state files.new)) result }
    ensures cut { OnOk result (sequences.new ≡ cut_to listing.now.runs sequences.old) }
    ensures alone { result ≡ Ok tt → (path name : List ℕ) → place.now ≡ Folder path name
        → CommitsAloneIfTold hand.old.run place.now hand.old.mail folder.now sequences.old
        (cut_to listing.now.runs sequences.old) hand.old.kept (F.state files.old).story (F.state files.new).story }
    ensures same { (hand.new.run ≡ hand.old.run) × (hand.new.mail ≡ hand.old.mail) }
{
    let old = Told::of(alloc, sequences, folder)?;
    cut_sequences(sequences, listing)?;
    commit_new(alloc, hand, files, place, folder, old, sequences)
}
