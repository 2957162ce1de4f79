// Why drafts are refused.
ghost use Rattle.std.specs.Prelude.{◌≡◌};
ghost use Rattle.mh_drafts.specs.declared.fault.DraftFault.TheVariants.{Memory as NoMemory};

use std::alloc::AllocError;
use thiserror::Error;

/// Why a text is no draft.
#[derive(Debug, PartialEq, Eq, Drop, Error)]
pub enum DraftFault {
    /// The number of the first wrong line, from 1.
    #[error("bad draft at line {0}")]
    Bad(u64),
    #[error("out of memory")]
    Memory,
}

impl From<AllocError> for DraftFault {
    ghost from_gives = { λ _ e. e ≡ NoMemory };

    fn from(_error: AllocError) -> DraftFault {
        DraftFault::Memory
    }
}
