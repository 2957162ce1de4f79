// Sequences without absent messages.
ghost use Rattle.std.specs.Prelude.{◌≡◌, OnOk, OnErr};
ghost use Rattle.sequence_commits.specs.Cutting.{cut_to};

use mh_sequences::{NumSet, Sequences};
use std::alloc::AllocError;

/// Drops the numbers that are not listed from all sequences, and leaves the current message.
pub fn cut_sequences(sequences: &mut Sequences, listing: &NumSet) -> Result<(), AllocError>
    ensures ok { OnOk result (sequences.new ≡ cut_to listing.now.runs sequences.old) }
    ensures err { OnErr result (sequences.new ≡ sequences.old) }
{
    sequences.cut(listing)
}
