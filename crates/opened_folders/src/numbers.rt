// Sets of messages.
ghost use Rattle.std.specs.Prelude.{◌≡◌, IfOk};
ghost use Rattle.sequence_commits.specs.RunsOfAll.{set_among};

use mh_base::MsgNum;
use mh_sequences::{NumSet, Pile, Run};
use std::alloc::{AllocError, Global};

/// These numbers as a set.
pub fn number_set(alloc: Global, numbers: &[MsgNum]) -> Result<NumSet, AllocError>
    ensures { IfOk result (λ s. s.runs ≡ set_among numbers.now) }
{
    let mut pile = Pile::new(alloc);
    for number in numbers {
        pile.add_run(Run {
            from: *number,
            to: *number,
        })?;
    }
    pile.into_set()
}
