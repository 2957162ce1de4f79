// The sequences of a folder.
ghost use Rattle.std.specs.Prelude.{◌≡◌, IfOk};
ghost use Rattle.msg_ranges.specs.Selection.{marks_of};
ghost use Rattle.command_stages.specs.Chosen.{marks_in};
ghost use Rattle.mh_profile.specs.Reading.{entries_seen};

use mh_base::FolderName;
use mh_profile::Entries;
use mh_sequences::Sequences;
use std::alloc::{AllocError, Global};
use step_plans::Hand;

/// The sequences of a text and of the context as the run has seen it.
pub(crate) fn sequences_in(
    alloc: Global,
    text: &[u8],
    hand: &Hand,
    folder: &FolderName,
) -> Result<Sequences, AllocError>
    ensures { IfOk result (λ s. marks_of s ≡ marks_in text.now (entries_seen hand.now.kept.context) folder.now) }
{
    match hand.context() {
        Some(entries) => Sequences::read(alloc, text, entries, folder),
        None => Sequences::read(alloc, text, &Entries::new(alloc), folder),
    }
}
