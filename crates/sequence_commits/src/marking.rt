// Marks on sequences.
ghost use Rattle.std.specs.Prelude.{◌≡◌, ℕ, OnOk, OnErr, take};
ghost use Rattle.sequence_commits.specs.Marking.{marked_by, marked_by_all};

use mh_sequences::{Mark, Sequences};
use std::alloc::AllocError;

/// Does what a mark says.
pub fn mark_one(sequences: &mut Sequences, mark: &Mark) -> Result<(), AllocError>
    ensures ok { OnOk result (sequences.new ≡ marked_by mark.now sequences.old) }
    ensures err { OnErr result (sequences.new ≡ sequences.old) }
{
    sequences.apply(mark)
}

/// Does what these marks say, one after another. Where memory is wanting, some of them are done.
pub fn mark_all(sequences: &mut Sequences, marks: &[Mark]) -> Result<(), AllocError>
    ensures ok { OnOk result (sequences.new ≡ marked_by_all marks.now sequences.old) }
    ensures err { OnErr result ((k : ℕ) × (sequences.new ≡ marked_by_all (take k marks.now) sequences.old)) }
{
    for mark in marks {
        mark_one(sequences, mark)?;
    }
    Ok(())
}
