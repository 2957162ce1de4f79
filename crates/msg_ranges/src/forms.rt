// The forms of words.
ghost use Rattle.std.specs.Prelude.{◌≡◌, IfOk, drop, length};
ghost use Rattle.mh_sequences.specs.Names.{IsNameIn};
ghost use Rattle.msg_ranges.specs.Forms.{count_form, form_with_sequence, negated_form, one_form, part_form, plain_form, range_form, sequence_form, single_form};
ghost use Rattle.msg_ranges.specs.Words.{negates as negates_word};

use crate::counts::{Counted, read_count, read_spot};
use crate::halves::halves;
use crate::names::read_name;
use crate::{Base, Spec, Spot};
use mh_base::Text;
use mh_sequences::{SeqFault, SeqName};
use std::alloc::{AllocError, Global};
use std::str;

fn one(a: Option<Base>) -> Option<Spec>
    ensures { result ≡ one_form a }
{
    match a {
        Some(a) => Some(Spec::One(a)),
        None => None,
    }
}

fn range(a: Option<Base>, b: Option<Base>) -> Option<Spec>
    ensures { result ≡ range_form a b }
{
    match (a, b) {
        (Some(a), Some(b)) => Some(Spec::Range(a, b)),
        _ => None,
    }
}

fn count(a: Option<Base>, c: Option<Counted>) -> Option<Spec>
    ensures { result ≡ count_form a c }
{
    match (a, c) {
        (Some(a), Some(c)) => Some(Spec::Count(a, c.way, c.number.get())),
        _ => None,
    }
}

fn single(word: &[u8]) -> Option<Spec>
    ensures { result ≡ single_form word.now }
{
    if word == b"all".as_slice() {
        Some(Spec::All)
    } else {
        one(read_name(word))
    }
}

/// The form without a sequence that a word has.
pub(crate) fn read_plain(word: &[u8]) -> Option<Spec>
    ensures { result ≡ plain_form word.now }
{
    if let Some((name, behind)) = halves(word, b':') {
        return count(read_name(name), read_count(behind));
    }
    match halves(word, b'-') {
        Some((from, to)) => range(read_name(from), read_name(to)),
        None => single(word),
    }
}

/// The name of a user's sequence that these bytes are.
fn sequence(alloc: Global, bytes: &[u8]) -> Result<Option<SeqName>, AllocError>
    ensures { IfOk result (λ found. IsNameIn bytes.now found) }
{
    let Ok(text) = str::from_utf8(bytes) else {
        return Ok(None);
    };
    let text = Text::from_str(alloc, text)?;
    match SeqName::read(alloc, &text) {
        Ok(name) => Ok(Some(name)),
        Err(SeqFault::BadName) => Ok(None),
        Err(SeqFault::Memory) => Err(AllocError),
    }
}

fn part(name: SeqName, spot: Option<Spot>, count: Option<Counted>) -> Option<Spec>
    ensures { result ≡ part_form name spot count }
{
    match (spot, count) {
        (Some(spot), _) => Some(Spec::SequenceSpot(name, spot)),
        (None, Some(c)) => Some(Spec::SequenceCount(name, c.way, c.number.get())),
        (None, None) => None,
    }
}

/// The form with a sequence that a word has.
fn read_sequence(alloc: Global, word: &[u8]) -> Result<Option<Spec>, AllocError>
    ensures { IfOk result (λ spec. spec ≡ sequence_form word.now) }
{
    match halves(word, b':') {
        Some((name, behind)) => match sequence(alloc, name)? {
            Some(name) => Ok(part(name, read_spot(behind), read_count(behind))),
            None => Ok(None),
        },
        None => match sequence(alloc, word)? {
            Some(name) => Ok(Some(Spec::Sequence(name))),
            None => Ok(None),
        },
    }
}

fn negates(prefix: &[u8], word: &[u8]) -> bool
    ensures { result ≡ negates_word prefix.now word.now }
{
    !prefix.is_empty() && word.starts_with(prefix)
}

fn negated(alloc: Global, bytes: &[u8]) -> Result<Option<Spec>, AllocError>
    ensures { IfOk result (λ spec. spec ≡ negated_form bytes.now) }
{
    match sequence(alloc, bytes)? {
        Some(name) => Ok(Some(Spec::Negated(name))),
        None => Ok(None),
    }
}

/// The form with a sequence that a word has, negated where it begins with the prefix.
pub(crate) fn read_with_sequence(
    alloc: Global,
    word: &[u8],
    prefix: &[u8],
) -> Result<Option<Spec>, AllocError>
    ensures { IfOk result (λ spec. spec ≡ form_with_sequence prefix.now word.now) }
{
    if negates(prefix, word) {
        negated(alloc, &word[prefix.len()..])
    } else {
        read_sequence(alloc, word)
    }
}
