// What words come to, one after another.
ghost use Rattle.std.specs.Prelude.{◌≡◌, ◌∷◌, [], ℕ, List as ListOf, IfOk, OnOk};
ghost use Rattle.pick_expr.specs.declared.lexeme.Lexeme.{Lexeme as LexemeValue};
ghost use Rattle.pick_expr.specs.Values.{fresh, value_of};

use crate::Lexeme;
use crate::frame::Frame;
use crate::stack::Stack;
use crate::truth::test_holds;
use mail_headers::Message;
use std::alloc::{AllocError, Global};

/// What the words come to that were passed: in the innermost braces, and in those around.
#[derive(Drop)]
pub(crate) struct Evaluation {
    pub frame: Frame,
    pub around: Stack<Frame>,
}

impl Evaluation {
    pub fn new(alloc: Global) -> Evaluation
        ensures { (result.frame ≡ fresh) × (result.around ≡ []) }
    {
        Evaluation {
            frame: Frame::new(),
            around: Stack::new(alloc),
        }
    }

    fn open(&mut self) -> Result<(), AllocError>
        ensures { OnOk result ((self.new.frame ≡ fresh) × (self.new.around ≡ self.old.frame ∷ self.old.around)) }
    {
        self.around.push(self.frame)?;
        self.frame = Frame::new();
        Ok(())
    }

    fn close(&mut self)
        ensures { (message : ListOf ℕ) (rest : ListOf LexemeValue)
            → value_of message (Lexeme.Close ∷ rest) self.old.frame self.old.around
            ≡ value_of message rest self.new.frame self.new.around }
    {
        match self.around.pop() {
            Some(outer) => self.frame = outer.absorb(self.frame.value()),
            None => {}
        }
    }

    /// Passes a word.
    pub fn pass(
        &mut self,
        alloc: Global,
        word: &Lexeme,
        message: &Message<'_>,
    ) -> Result<(), AllocError>
        ensures { OnOk result ((rest : ListOf LexemeValue)
            → value_of message.now (word.now ∷ rest) self.old.frame self.old.around
            ≡ value_of message.now rest self.new.frame self.new.around) }
    {
        match word {
            Lexeme::And => Ok(()),
            Lexeme::Or => {
                self.frame = self.frame.next_choice();
                Ok(())
            }
            Lexeme::Not => {
                self.frame = self.frame.negate();
                Ok(())
            }
            Lexeme::Open => self.open(),
            Lexeme::Close => {
                self.close();
                Ok(())
            }
            Lexeme::Test(test) => {
                let value = test_holds(alloc, test, message)?;
                self.frame = self.frame.absorb(value);
                Ok(())
            }
        }
    }
}

/// What words come to, each of whose tests is looked at.
pub(crate) fn whole_value(
    alloc: Global,
    words: &[Lexeme],
    message: &Message<'_>,
) -> Result<bool, AllocError>
    ensures { IfOk result (λ r. r ≡ value_of message.now words.now fresh []) }
{
    let mut evaluation = Evaluation::new(alloc);
    for word in words {
        evaluation.pass(alloc, word, message)?;
    }
    Ok(evaluation.frame.value())
}
