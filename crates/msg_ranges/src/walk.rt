// Runs one after another.
ghost use Rattle.mh_sequences.specs.Runs.{AreRuns};
ghost use Rattle.msg_ranges.specs.Runs.{IsAt};

use mh_sequences::{NumSet, Run};

/// The run at this place, from 0.
pub(crate) fn run_at(set: &NumSet, index: u64) -> Option<Run>
    ensures at { IsAt set.now.runs index result }
    ensures valid { AreRuns set.now.runs }
{
    if index < set.runs() {
        set.run_at(index)
    } else {
        None
    }
}
