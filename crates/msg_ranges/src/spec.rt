// What words mean.
ghost use Rattle.std.specs.Prelude.{◌≡◌, ◌⊎◌, IfOk, IfErr, IsErrOf};
ghost use Rattle.std.specs.Str.{encode_utf8_all};
ghost use Rattle.msg_ranges.specs.declared.spec.Spec.{Spec as SpecValue};
ghost use Rattle.msg_ranges.specs.Words.{Reads};
ghost use Rattle.msg_ranges.specs.Selecting.{IsBad};

use crate::SelectFault;
use crate::forms::{read_plain, read_with_sequence};
use mh_base::{MsgNum, Text};
use mh_sequences::SeqName;
use std::alloc::Global;

/// A name of a message.
#[derive(Clone, Copy, Debug, PartialEq, Eq)]
pub enum Base {
    Number(MsgNum),
    First,
    Last,
    Cur,
    Prev,
    Next,
}

/// The sign of a count.
#[derive(Clone, Copy, Debug, PartialEq, Eq)]
pub enum Way {
    Unsigned,
    Plus,
    Minus,
}

/// One member of a sequence.
#[derive(Clone, Copy, Debug, PartialEq, Eq)]
pub enum Spot {
    First,
    Last,
    Next,
    Prev,
}

/// What a word means, by its form.
#[derive(Drop)]
pub enum Spec {
    /// `name`
    One(Base),
    /// `name-name`
    Range(Base, Base),
    /// `name:n`
    Count(Base, Way, u32),
    /// `all`
    All,
    /// `sequence`
    Sequence(SeqName),
    /// `sequence:n`
    SequenceCount(SeqName, Way, u32),
    /// `sequence:first` and the like
    SequenceSpot(SeqName, Spot),
    /// A sequence behind the prefix of negation.
    Negated(SeqName),
}

impl Spec {
    /// Reads a word. Where the prefix is empty no word is negated.
    pub fn read(alloc: Global, text: &Text, negation: &[u8]) -> Result<Spec, SelectFault>
        ensures reading { IfOk result (λ spec. Reads negation.now (encode_utf8_all text.now) spec) }
        ensures alone { IfOk result
            (λ spec. (other : SpecValue) → Reads negation.now (encode_utf8_all text.now) other → other ≡ spec) }
        ensures refused { IsErrOf result (SelectFault.BadSpec 0) → IsBad negation.now (encode_utf8_all text.now) }
        ensures faults { IfErr result (λ e. (e ≡ SelectFault.BadSpec 0) ⊎ (e ≡ SelectFault.Memory)) }
    {
        let word = text.as_str().as_bytes();
        if let Some(spec) = read_plain(word) {
            return Ok(spec);
        }
        match read_with_sequence(alloc, word, negation)? {
            Some(spec) => Ok(spec),
            None => Err(SelectFault::BadSpec(0)),
        }
    }
}
