// What a folder's names and its text of sequences tell, without its lock.
ghost use Rattle.std.specs.Prelude.{◌≡◌, IfOk};
ghost use Rattle.sequence_commits.specs.Cutting.{cut_to};
ghost use Rattle.sequence_commits.specs.Reading.{sequences_in as sequences_in_text};
ghost use Rattle.told_folders.specs.Tasks.{listed_runs};
ghost use Rattle.mh_profile.specs.Reading.{entries_seen};

use command_stages::noted;
use mh_base::{FolderName, NameList};
use mh_profile::Entries;
use mh_sequences::{NumSet, Sequences};
use sequence_commits::{cut_sequences, read_sequences};
use std::alloc::{AllocError, Global};
use step_plans::Hand;

/// The message numbers among a folder's names.
pub fn listed(alloc: Global, names: &NameList) -> Result<NumSet, AllocError>
    ensures { IfOk result (λ s. s.runs ≡ listed_runs names.now) }
{
    noted(alloc, names.as_slice())?.into_set()
}

/// The sequences of a text and of the context as the run has seen it.
fn sequences_in(
    alloc: Global,
    hand: &Hand,
    folder: &FolderName,
    text: &[u8],
) -> Result<Sequences, AllocError>
    ensures { IfOk result (λ s. s ≡ sequences_in_text text.now (entries_seen hand.now.kept.context) folder.now) }
{
    match hand.context() {
        Some(entries) => read_sequences(alloc, text, entries, folder),
        None => read_sequences(alloc, text, &Entries::new(alloc), folder),
    }
}

/// The same without the messages that are not listed.
pub fn sequences_listed(
    alloc: Global,
    hand: &Hand,
    folder: &FolderName,
    text: &[u8],
    listing: &NumSet,
) -> Result<Sequences, AllocError>
    ensures { IfOk result
        (λ s.
        s ≡ cut_to listing.now.runs (sequences_in_text text.now (entries_seen hand.now.kept.context) folder.now)) }
{
    let mut sequences = sequences_in(alloc, hand, folder, text)?;
    cut_sequences(&mut sequences, listing)?;
    Ok(sequences)
}
