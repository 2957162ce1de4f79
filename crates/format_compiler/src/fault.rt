// Why formats are refused.
ghost use Rattle.std.specs.Prelude.{◌≡◌};
ghost use Rattle.format_compiler.specs.declared.fault.FormatFault.TheVariants.{Memory as NoMemory};

use std::alloc::AllocError;
use thiserror::Error;

/// Why a text gives no program.
#[derive(Debug, PartialEq, Eq, Drop, Error)]
pub enum FormatFault {
    /// The text is no format: the place in bytes of its first wrong token, or its length where it ends too
    /// early.
    #[error("bad format at byte {0}")]
    Bad(u64),
    #[error("out of memory")]
    Memory,
}

impl From<AllocError> for FormatFault {
    ghost from_gives = { λ _ e. e ≡ NoMemory };

    fn from(_error: AllocError) -> FormatFault {
        FormatFault::Memory
    }
}
