// Programs.
ghost use Rattle.std.specs.Prelude.{◌≡◌};

use crate::Instruction;
use mh_base::List;
use std::marker::Model;

/// A compiled format, which contracts see as the list of its instructions.
#[derive(Drop)]
pub struct Program {
    instructions: List<Instruction>,
}

impl Model for Program {
    ghost use Rattle.std.specs.Prelude.{List};
    ghost use Rattle.format_compiler.specs.declared.instruction.Instruction.{Instruction};

    ghost Value = { List Instruction };

    ghost view = { λ p. p.instructions };
}

impl Program {
    pub(crate) fn new(instructions: List<Instruction>) -> Program
        ensures { result ≡ instructions }
    {
        Program { instructions }
    }

    pub fn instructions(&self) -> &[Instruction]
        ensures { result.now ≡ self.now }
    {
        self.instructions.as_slice()
    }
}
