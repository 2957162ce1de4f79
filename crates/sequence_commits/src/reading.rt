// The sequences of a folder.
ghost use Rattle.std.specs.Prelude.{◌≡◌, IfOk};
ghost use Rattle.sequence_commits.specs.Reading.{sequences_in};

use mh_base::FolderName;
use mh_profile::Entries;
use mh_sequences::Sequences;
use std::alloc::{AllocError, Global};

/// The sequences of a folder, by its text and by the context's entries.
pub fn read_sequences(
    alloc: Global,
    text: &[u8],
    context: &Entries,
    folder: &FolderName,
) -> Result<Sequences, AllocError>
    ensures { IfOk result (λ s. s ≡ sequences_in text.now context.now folder.now) }
{
    Sequences::read(alloc, text, context, folder)
}
