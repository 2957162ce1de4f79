// What words come to, where tests are passed over whose values no longer count.
ghost use Rattle.std.specs.Prelude.{◌≡◌, ◌≤◌, ◌<◌, ◌+◌, ◌^◌, ◌∷◌, [], ℕ, List as ListOf, IfOk, IsTrue, OnOk, Some};
ghost use Rattle.pick_expr.specs.declared.frame.Frame.{Frame as FrameValue};
ghost use Rattle.pick_expr.specs.declared.lexeme.Lexeme.{Lexeme as LexemeValue};
ghost use Rattle.pick_expr.specs.Skipping.{Gives, is_settled, value_behind};
ghost use Rattle.pick_expr.specs.Values.{fresh, value_of};

use crate::Lexeme;
use crate::evaluation::{Evaluation, whole_value};
use mail_headers::Message;
use std::alloc::{AllocError, Global};

/// An evaluation that passes over tests whose values no longer count.
#[derive(Drop)]
struct Shortened {
    evaluation: Evaluation,
    /// How many braces are open of those that are passed over.
    skipped: u64,
}

/// How many braces are open behind a word in braces that are passed over.
fn open_behind(word: &Lexeme, skipped: u64) -> u64
    requires inside { 1 ≤ skipped }
    requires few { skipped + 1 < 2 ^ 64 }
    ensures behind { (message : ListOf ℕ) (rest : ListOf LexemeValue) (f : FrameValue) (around : ListOf FrameValue)
        → value_behind message skipped (word.now ∷ rest) f around ≡ value_behind message result rest f around }
    ensures few { result ≤ skipped + 1 }
{
    match word {
        Lexeme::Open => skipped + 1,
        Lexeme::Close => skipped - 1,
        _ => skipped,
    }
}

impl Shortened {
    /// Passes a word where what comes next no longer counts.
    fn pass_settled(
        &mut self,
        alloc: Global,
        word: &Lexeme,
        message: &Message<'_>,
    ) -> Result<(), AllocError>
        requires settled { IsTrue (is_settled self.old.evaluation.frame) }
        requires outside { self.old.skipped ≡ 0 }
        ensures gives { OnOk result ((rest : ListOf LexemeValue)
            → Gives (value_behind message.now 0 (word.now ∷ rest) self.old.evaluation.frame self.old.evaluation.around)
            (value_behind message.now self.new.skipped rest self.new.evaluation.frame self.new.evaluation.around)) }
        ensures few { self.new.skipped ≤ 1 }
    {
        match word {
            Lexeme::Open => {
                self.evaluation.frame = self.evaluation.frame.absorb(false);
                self.skipped = 1;
                Ok(())
            }
            Lexeme::Test(_) => {
                self.evaluation.frame = self.evaluation.frame.absorb(false);
                Ok(())
            }
            _ => self.evaluation.pass(alloc, word, message),
        }
    }

    /// Passes a word.
    fn pass(
        &mut self,
        alloc: Global,
        word: &Lexeme,
        message: &Message<'_>,
    ) -> Result<(), AllocError>
        requires { self.old.skipped + 1 < 2 ^ 64 }
        ensures gives { OnOk result ((rest : ListOf LexemeValue)
            → Gives (value_behind message.now self.old.skipped (word.now ∷ rest) self.old.evaluation.frame
            self.old.evaluation.around)
            (value_behind message.now self.new.skipped rest self.new.evaluation.frame self.new.evaluation.around)) }
        ensures few { self.new.skipped ≤ self.old.skipped + 1 }
    {
        if self.skipped > 0 {
            self.skipped = open_behind(word, self.skipped);
            Ok(())
        } else if self.evaluation.frame.is_settled() {
            self.pass_settled(alloc, word, message)
        } else {
            self.evaluation.pass(alloc, word, message)
        }
    }

    /// What all words come to, where all braces closed that were passed over.
    fn end(&self) -> Option<bool>
        ensures { (message : ListOf ℕ)
            → result ≡ value_behind message self.now.skipped [] self.now.evaluation.frame self.now.evaluation.around }
    {
        if self.skipped == 0 {
            Some(self.evaluation.frame.value())
        } else {
            None
        }
    }
}

/// What words come to, of whose tests those are looked at that count; none where braces don't close.
fn short_value(
    alloc: Global,
    words: &[Lexeme],
    message: &Message<'_>,
) -> Result<Option<bool>, AllocError>
    ensures { IfOk result (Gives (Some (value_of message.now words.now fresh []))) }
{
    let mut shortened = Shortened {
        evaluation: Evaluation::new(alloc),
        skipped: 0,
    };
    for word in words {
        shortened.pass(alloc, word, message)?;
    }
    Ok(shortened.end())
}

/// What words come to. Those of an expression that was read have all their braces closed.
pub(crate) fn words_value(
    alloc: Global,
    words: &[Lexeme],
    message: &Message<'_>,
) -> Result<bool, AllocError>
    ensures { IfOk result (λ r. r ≡ value_of message.now words.now fresh []) }
{
    match short_value(alloc, words, message)? {
        Some(value) => Ok(value),
        None => whole_value(alloc, words, message),
    }
}
