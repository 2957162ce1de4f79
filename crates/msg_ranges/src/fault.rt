// Why words are refused.
ghost use Rattle.std.specs.Prelude.{◌≡◌};
ghost use Rattle.msg_ranges.specs.declared.fault.SelectFault.TheVariants.{Memory};

use std::alloc::AllocError;
use thiserror::Error;

/// Why words select nothing: the place of the first word that is refused, from 0.
#[derive(Debug, PartialEq, Eq, Drop, Error)]
pub enum SelectFault {
    #[error("word {0} names no messages")]
    BadSpec(u64),
    #[error("the message of word {0} is not there")]
    Absent(u64),
    #[error("no message is in the range of word {0}")]
    EmptyRange(u64),
    #[error("no message is in the sequence of word {0}")]
    EmptySequence(u64),
    #[error("out of memory")]
    Memory,
}

impl From<AllocError> for SelectFault {
    ghost from_gives = { λ _ e. e ≡ Memory };

    fn from(_error: AllocError) -> SelectFault {
        SelectFault::Memory
    }
}
