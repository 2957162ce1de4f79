// How a command ends before its end.
ghost use Rattle.std.specs.Prelude.{◌≡◌};

use mh_base::Bytes;
use std::alloc::AllocError;
use step_plans::CommandFault;

/// A command's fault, and the word that a refusal of words speaks of.
#[derive(Drop)]
pub struct Ended {
    pub fault: CommandFault,
    pub word: Option<Bytes>,
}

impl From<CommandFault> for Ended {
    ghost use Rattle.command_words.specs.Ended.{plain};

    ghost from_gives = { λ fault e. e ≡ plain fault };

    fn from(fault: CommandFault) -> Self {
        Ended { fault, word: None }
    }
}

impl From<AllocError> for Ended {
    ghost use Rattle.step_plans.specs.declared.command_fault.CommandFault.TheVariants.{Memory};
    ghost use Rattle.command_words.specs.Ended.{plain};

    ghost from_gives = { λ _ e. e ≡ plain Memory };

    fn from(_: AllocError) -> Self {
        Ended {
            fault: CommandFault::Memory,
            word: None,
        }
    }
}
