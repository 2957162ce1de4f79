// The conditionals that are open.
ghost use Rattle.std.specs.Prelude.{◌≡◌, [], OnOk};
ghost use Rattle.format_compiler.specs.Words.{behind_word, is_inside as is_inside_any, may_choose as may_choose_in, room_in};

use crate::Word;
use std::alloc::{AllocError, Global};
use std::marker::Model;

/// The conditionals that are open at a place, which contracts see as a list, the innermost first: whether
/// its `%|` was passed.
#[derive(Drop)]
pub(crate) struct Conditionals {
    passed: Vec<bool>,
}

impl Model for Conditionals {
    ghost use Rattle.std.specs.Prelude.{Bool, List, reverse};

    ghost Value = { List Bool };

    ghost view = { λ s. reverse s.passed.items };
}

impl Conditionals {
    pub fn new(alloc: Global) -> Conditionals
        ensures { result ≡ [] }
    {
        Conditionals {
            passed: Vec::new(alloc),
        }
    }

    /// How many conditionals and functions may still be opened.
    pub fn room(&self) -> usize
        ensures { result ≡ room_in self.now }
    {
        64usize.saturating_sub(self.passed.len())
    }

    /// Whether one is open whose `%|` was not passed.
    pub fn may_choose(&self) -> bool
        ensures { result ≡ may_choose_in self.now }
    {
        match self.passed.last() {
            Some(passed) => !*passed,
            None => false,
        }
    }

    pub fn is_inside(&self) -> bool
        ensures { result ≡ is_inside_any self.now }
    {
        !self.passed.is_empty()
    }

    /// Passes a word.
    pub fn pass(&mut self, word: &Word) -> Result<(), AllocError>
        ensures { OnOk result (self.new ≡ behind_word word.now self.old) }
    {
        match word {
            Word::Nothing | Word::Print(_) | Word::ElseIf(_) => Ok(()),
            Word::If(_) => {
                self.passed.push(false)?;
                Ok(())
            }
            Word::Else => {
                let _ = self.passed.pop();
                self.passed.push(true)?;
                Ok(())
            }
            Word::End => {
                let _ = self.passed.pop();
                Ok(())
            }
        }
    }
}
