// Names of sequences.
ghost use Rattle.std.specs.Prelude.{◌≡◌, ◌↔◌, false, IsTrue, IsErrOf, IfOk, length, nat_eq, nat_le, bytes_eq, refl, Some};
ghost use Rattle.std.specs.Cmp.{partial_equiv_from_equiv};
ghost use Rattle.std.specs.Cmp.Lexicographic.{nat_list_cmp_total, nat_list_eq_equiv, pointwise, slice_cmp, texts_po, texts_ties};
ghost use Rattle.std.specs.List.{list_all};
ghost use Rattle.std.specs.Char.{is_ascii_alphanumeric};
ghost use Rattle.std.specs.Ordering.{nat_cmp};
ghost use Rattle.mh_sequences.specs.Names.{is_seq_name, is_reserved as is_reserved_name, begins_with_letter, IsNameIn};

use mh_base::{Duplicate, Text};
use std::alloc::{AllocError, Global};
use std::cmp::Ordering;
use std::marker::Model;
use std::str;
use thiserror::Error;

/// The name of a user's sequence: a letter and then letters and digits.
#[derive(Drop)]
pub struct SeqName(Text);

/// Why a text is no name of a user's sequence.
#[derive(Debug, PartialEq, Eq, Drop, Error)]
pub enum SeqFault {
    #[error("no sequence name")]
    BadName,
    #[error("out of memory")]
    Memory,
}

impl Model for SeqName {
    ghost use Rattle.std.specs.Prelude.{List, ℕ, IsTrue};
    ghost use Rattle.mh_sequences.specs.Names.{is_seq_name};

    ghost Value = { List ℕ };

    ghost view = { λ n. n.0 };

    ghost invariant = { λ n. IsTrue (is_seq_name n.0) };
}

fn is_reserved(name: &[u8]) -> bool
    ensures { result ≡ is_reserved_name name.now }
{
    name == b"first".as_slice()
        || name == b"last".as_slice()
        || name == b"cur".as_slice()
        || name == b"prev".as_slice()
        || name == b"next".as_slice()
        || name == b"all".as_slice()
        || name == b"new".as_slice()
}

fn has_letter_first(name: &[u8]) -> bool
    ensures { result ≡ begins_with_letter name.now }
{
    match name.split_first() {
        Some((first, _)) => first.is_ascii_alphabetic(),
        None => false,
    }
}

fn has_name_bytes(name: &[u8]) -> bool
    ensures { result ≡ list_all is_ascii_alphanumeric name.now }
{
    name.iter().all(|byte| byte.is_ascii_alphanumeric())
}

fn is_short(name: &[u8]) -> bool
    ensures { result ≡ nat_le (length name.now) 64 }
{
    name.len() <= 64
}

#[tactic(auto, unfolding(crate::specs::Names::is_seq_name))]
pub(crate) fn is_name(name: &[u8]) -> bool
    ensures { result ≡ is_seq_name name.now }
{
    has_letter_first(name) && has_name_bytes(name) && is_short(name) && !is_reserved(name)
}

impl PartialEq for SeqName {
    ghost eq = { pointwise nat_eq };

    ghost laws = { partial_equiv_from_equiv nat_list_eq_equiv };

    fn eq(&self, other: &SeqName) -> bool {
        self.bytes() == other.bytes()
    }
}

impl Eq for SeqName {
    ghost laws = { nat_list_eq_equiv };
}

impl PartialOrd for SeqName {
    ghost partial_cmp = { λ x y. Some (slice_cmp nat_cmp x y) };

    ghost laws = { texts_po };

    fn partial_cmp(&self, other: &SeqName) -> Option<Ordering> {
        Some(self.cmp(other))
    }
}

/// Names stand in byte order.
impl Ord for SeqName {
    ghost cmp = { slice_cmp nat_cmp };

    ghost total = { nat_list_cmp_total };

    ghost matches_partial_cmp = { λ x y. refl };

    ghost matches_eq = { texts_ties };

    fn cmp(&self, other: &SeqName) -> Ordering {
        self.bytes().cmp(&other.bytes())
    }
}

impl SeqName {
    /// Reads a name; letters of both cases are told apart.
    pub fn read(alloc: Global, text: &Text) -> Result<SeqName, SeqFault>
        ensures value { IfOk result (λ n. (n ≡ text.now) × IsTrue (is_seq_name n)) }
        ensures refused { IsErrOf result SeqFault.BadName → is_seq_name text.now ≡ false }
    {
        if !is_name(text.as_str().as_bytes()) {
            return Err(SeqFault::BadName);
        }
        match text.duplicate(alloc) {
            Ok(text) => Ok(SeqName(text)),
            Err(_) => Err(SeqFault::Memory),
        }
    }

    /// The name that these bytes are, where they are one.
    pub(crate) fn in_bytes(alloc: Global, bytes: &[u8]) -> Result<Option<SeqName>, AllocError>
        ensures { IfOk result (λ found. IsNameIn bytes.now found) }
    {
        if !is_name(bytes) {
            return Ok(None);
        }
        let Ok(text) = str::from_utf8(bytes) else {
            return Ok(None);
        };
        Ok(Some(SeqName(Text::from_str(alloc, text)?)))
    }

    pub fn text(&self) -> &Text
        ensures value { result.now ≡ self.now }
        ensures valid { IsTrue (is_seq_name result.now) }
    {
        &self.0
    }

    /// The name in bytes, of which each is a character.
    pub fn bytes(&self) -> &[u8]
        ensures value { result.now ≡ self.now }
        ensures valid { IsTrue (is_seq_name result.now) }
    {
        self.0.as_str().as_bytes()
    }

    /// The same name again, as one under which a sequence stands.
    pub(crate) fn key(&self, alloc: Global) -> Result<SeqName, AllocError>
        ensures value { IfOk result (λ n. n ≡ self.now) }
        ensures valid { IsTrue (is_seq_name self.now) }
    {
        Ok(SeqName(self.0.duplicate(alloc)?))
    }

    /// The same name again.
    pub fn copy(&self, alloc: Global) -> Result<SeqName, AllocError>
        ensures { IfOk result (λ n. n ≡ self.now) }
    {
        self.key(alloc)
    }
}
