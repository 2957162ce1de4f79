// Paths of parts.
ghost use Rattle.std.specs.Prelude.{◌≡◌, ◌++◌, ◌∷◌, ◌≤◌, not, ◌==◌, [], length, take, drop, IfOk, IsErrOf, MatchOption, Some, None};
ghost use Rattle.std.specs.List.{prefix_len};
ghost use Rattle.mime_tree.specs.Paths.{step_of, word_len as first_word_len, path_up_to, path_of};

use mh_base::{Duplicate, List, MsgNum, NumberList, Text};
use std::alloc::{AllocError, Global};
use std::marker::Model;
use thiserror::Error;

/// The way from the root to a part: the number of the part at each level, from 1.
#[derive(Drop)]
pub struct PartPath(NumberList);

/// Why a word is no path.
#[derive(Debug, PartialEq, Eq, Drop, Error)]
pub enum PathFault {
    #[error("no path of a part")]
    BadPath,
    #[error("out of memory")]
    Memory,
}

impl From<AllocError> for PathFault {
    ghost use Rattle.mime_tree.specs.declared.path.PathFault.TheVariants.{Memory};

    ghost from_gives = { λ _ e. e ≡ Memory };

    fn from(_error: AllocError) -> PathFault {
        PathFault::Memory
    }
}

impl Model for PartPath {
    ghost use Rattle.std.specs.Prelude.{List, ℕ};

    ghost Value = { List ℕ };

    ghost view = { λ p. p.0 };
}

fn word_len(text: &[u8]) -> usize
    ensures value { result ≡ first_word_len text.now }
    ensures inside { result ≤ length text.now }
{
    text.iter().take_while(|byte| **byte != b'.').count()
}

/// A number from 1 to 9999.
fn read_step(word: &[u8]) -> Option<u64>
    ensures { result ≡ step_of word.now }
{
    let number = MsgNum::read(word)?.get();
    if number <= 9999 {
        Some(number as u64)
    } else {
        None
    }
}

/// At most 64 numbers joined by dots.
fn read_steps(alloc: Global, text: &[u8]) -> Result<Option<NumberList>, AllocError>
    ensures { IfOk result (λ path. path ≡ path_up_to 64 text.now) }
{
    let mut numbers = List::new(alloc);
    let mut rest = text;
    for _i in 0..64u64 {
        let (word, behind) = rest.split_at(word_len(rest));
        let Some(number) = read_step(word) else {
            return Ok(None);
        };
        numbers.push(number)?;
        match behind.split_first() {
            Some((_, more)) => rest = more,
            None => return Ok(Some(numbers)),
        }
    }
    Ok(None)
}

impl PartPath {
    /// The path of the root.
    pub(crate) fn root(alloc: Global) -> PartPath
        ensures { result ≡ [] }
    {
        PartPath(List::new(alloc))
    }

    /// The path of a part's kid of this number.
    pub(crate) fn kid(&self, alloc: Global, number: u64) -> Result<PartPath, AllocError>
        ensures { IfOk result (λ p. p ≡ self.now ++ number ∷ []) }
    {
        let mut numbers = self.0.duplicate(alloc)?;
        numbers.push(number)?;
        Ok(PartPath(numbers))
    }

    /// Reads numbers from 1 to 9999 joined by dots, at most 64 of them.
    #[tactic(auto, unfolding(crate::specs::Paths::path_of))]
    pub fn read(alloc: Global, text: &Text) -> Result<PartPath, PathFault>
        ensures value { IfOk result (λ p. path_of text.now ≡ Some p) }
        ensures refused { IsErrOf result PathFault.BadPath → path_of text.now ≡ None }
    {
        match read_steps(alloc, text.as_str().as_bytes())? {
            Some(numbers) => Ok(PartPath(numbers)),
            None => Err(PathFault::BadPath),
        }
    }

    pub fn numbers(&self) -> &NumberList
        ensures { result.now ≡ self.now }
    {
        &self.0
    }
}

impl Duplicate for PartPath {
    fn duplicate(&self, alloc: Global) -> Result<PartPath, AllocError> {
        Ok(PartPath(self.0.duplicate(alloc)?))
    }
}
