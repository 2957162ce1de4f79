// Why texts are refused.
ghost use Rattle.std.specs.Prelude.{◌≡◌};
ghost use Rattle.pick_expr.specs.declared.fault.ExprFault.TheVariants.{Memory as ExprMemory};
ghost use Rattle.pick_expr.specs.declared.fault.PatternFault.TheVariants.{Memory as PatternMemory};

use std::alloc::AllocError;
use thiserror::Error;

/// Why a text gives no pattern.
#[derive(Debug, PartialEq, Eq, Drop, Error)]
pub enum PatternFault {
    /// A class isn't closed or has no byte, or there are more than 127 atoms.
    #[error("not a pattern")]
    Bad,
    #[error("out of memory")]
    Memory,
}

impl From<AllocError> for PatternFault {
    ghost from_gives = { λ _ e. e ≡ PatternMemory };

    fn from(_error: AllocError) -> PatternFault {
        PatternFault::Memory
    }
}

/// Why words give no expression: the place of the first word that is refused.
#[derive(Debug, PartialEq, Eq, Drop, Error)]
pub enum ExprFault {
    /// The word can't stand there, or its pattern is wrong; or the words end too early, and the place is
    /// that behind the last word.
    #[error("the words are no expression at word {0}")]
    BadExpr(u64),
    /// The date can't be read.
    #[error("the date of word {0} can't be read")]
    BadDate(u64),
    #[error("out of memory")]
    Memory,
}

impl From<AllocError> for ExprFault {
    ghost from_gives = { λ _ e. e ≡ ExprMemory };

    fn from(_error: AllocError) -> ExprFault {
        ExprFault::Memory
    }
}
