// What may stand behind the words that were read.
ghost use Rattle.std.specs.Prelude.{◌≡◌, IfOk};
ghost use Rattle.pick_expr.specs.Spots.{spot_of, StepsTo};
ghost use Rattle.pick_expr.specs.Steps.{at_start, closed_spot, joined_spot, may_end as spot_may_end, negated_spot, open_spot, step};

use crate::Lexeme;
use crate::stack::Stack;
use std::alloc::{AllocError, Global};

/// Whether an operand is to come, and how many `-not` and `-lbrace` may still be opened: in the
/// innermost braces, at this word, and in the braces around.
#[derive(Drop)]
pub(crate) struct Reader {
    needs: bool,
    base: u64,
    room: u64,
    around: Stack<u64>,
}

impl Reader {
    pub fn new(alloc: Global) -> Reader
        ensures { spot_of result ≡ at_start }
    {
        Reader {
            needs: true,
            base: 64,
            room: 64,
            around: Stack::new(alloc),
        }
    }

    fn join(&mut self) -> bool
        ensures { StepsTo (joined_spot (spot_of self.old)) (spot_of self.new) result }
    {
        if self.needs {
            return false;
        }
        self.needs = true;
        true
    }

    fn negate(&mut self) -> bool
        ensures { StepsTo (negated_spot (spot_of self.old)) (spot_of self.new) result }
    {
        if self.room == 0 {
            return false;
        }
        self.needs = true;
        self.room -= 1;
        true
    }

    fn open(&mut self) -> Result<bool, AllocError>
        ensures { IfOk result (λ r. StepsTo (open_spot (spot_of self.old)) (spot_of self.new) r) }
    {
        if self.room == 0 {
            return Ok(false);
        }
        self.around.push(self.base)?;
        self.needs = true;
        self.room -= 1;
        self.base = self.room;
        Ok(true)
    }

    fn close(&mut self) -> bool
        ensures { StepsTo (closed_spot (spot_of self.old)) (spot_of self.new) result }
    {
        if self.needs {
            return false;
        }
        match self.around.pop() {
            Some(base) => {
                self.base = base;
                self.room = base;
                true
            }
            None => false,
        }
    }

    /// Passes a word, if it can stand here.
    pub fn pass(&mut self, word: &Lexeme) -> Result<bool, AllocError>
        ensures { IfOk result (λ r. StepsTo (step word.now (spot_of self.old)) (spot_of self.new) r) }
    {
        match word {
            Lexeme::And | Lexeme::Or => Ok(self.join()),
            Lexeme::Not => Ok(self.negate()),
            Lexeme::Open => self.open(),
            Lexeme::Close => Ok(self.close()),
            Lexeme::Test(_) => {
                self.needs = false;
                self.room = self.base;
                Ok(true)
            }
        }
    }

    /// Whether an expression may end here.
    pub fn may_end(self) -> bool
        ensures { result ≡ spot_may_end (spot_of self) }
    {
        let Reader {
            needs,
            mut around,
            ..
        } = self;
        !needs && around.pop().is_none()
    }
}
