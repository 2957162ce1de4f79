// The attributes of a type, read.
ghost use Rattle.std.specs.Prelude.{◌≡◌, ◌<◌, ◌≤◌, ⊤, length, MatchOption, Some, None, IfOk};
ghost use Rattle.mime_tree.specs.Tokens.{worth_in};
ghost use Rattle.mime_tree.specs.Words.{word_of};
ghost use Rattle.mh_drafts.specs.Attributes.{attribute_in, attributes_in, named_in, valued_in};
ghost use Rattle.mh_drafts.specs.Blanks.{behind_byte as rest_behind_byte, behind_word as rest_behind_word};
ghost use Rattle.mh_drafts.specs.RawAttributes.{attribute_of, taken_of, all_taken};

use crate::blanks::{behind_blanks, is_blank, is_led_by};
use crate::{Attribute, AttributeList};
use mh_base::{Bytes, List};
use mime_tree::{Word, first_token, quoted, unprotected};
use std::alloc::{AllocError, Global};

/// An attribute as it is written, and what follows it.
#[derive(Clone, Copy, Debug)]
pub(crate) struct RawAttribute<'a> {
    name: &'a [u8],
    value: &'a [u8],
    rest: &'a [u8],
}

/// All attributes, and what follows them.
#[derive(Drop)]
pub(crate) struct Attributes<'a> {
    pub(crate) list: AttributeList,
    pub(crate) rest: &'a [u8],
}

/// What follows this byte at the front.
pub(crate) fn behind_byte(text: &[u8], byte: u8) -> Option<&[u8]>
    ensures value { MatchOption result (rest_behind_byte byte text.now ≡ None)
        (λ rest. rest_behind_byte byte text.now ≡ Some rest.now) }
    ensures inside { MatchOption result ⊤ (λ rest. length rest.now < length text.now) }
{
    match text.split_first() {
        Some((first, rest)) if *first == byte => Some(rest),
        _ => None,
    }
}

/// What follows a word that ends here.
pub(crate) fn behind_word(text: &[u8]) -> Option<&[u8]>
    ensures value { MatchOption result (rest_behind_word text.now ≡ None)
        (λ rest. rest_behind_word text.now ≡ Some rest.now) }
    ensures inside { MatchOption result ⊤ (λ rest. length rest.now ≤ length text.now) }
{
    match text.first() {
        Some(first) if is_blank(*first) || *first == b';' => Some(behind_blanks(text)),
        _ => None,
    }
}

/// The token or the inside of the quoted string at the front.
fn first_worth(text: &[u8]) -> Option<Word<'_>>
    ensures value { MatchOption result (worth_in text.now ≡ None) (λ w. worth_in text.now ≡ Some (word_of w)) }
    ensures inside { MatchOption result ⊤ (λ w. length w.rest.now ≤ length text.now) }
{
    match text.split_first() {
        Some((b'"', inside)) => quoted(inside),
        _ => first_token(text),
    }
}

fn valued<'a>(name: Word<'a>, value: Word<'a>) -> Option<RawAttribute<'a>>
    ensures value { MatchOption result (valued_in (word_of name.entry) (word_of value.entry) ≡ None)
        (λ a. valued_in (word_of name.entry) (word_of value.entry) ≡ Some (taken_of a)) }
    ensures inside { MatchOption result ⊤ (λ a. length a.rest.now ≤ length value.entry.rest.now) }
{
    Some(RawAttribute {
        name: name.value,
        value: value.value,
        rest: behind_word(value.rest)?,
    })
}

fn named(name: Word<'_>) -> Option<RawAttribute<'_>>
    ensures value { MatchOption result (named_in (word_of name.entry) ≡ None)
        (λ a. named_in (word_of name.entry) ≡ Some (taken_of a)) }
    ensures inside { MatchOption result ⊤ (λ a. length a.rest.now ≤ length name.entry.rest.now) }
{
    valued(name, first_worth(behind_byte(name.rest, b'=')?)?)
}

/// The attribute at the front, with the semicolon before it.
fn first_attribute(text: &[u8]) -> Option<RawAttribute<'_>>
    ensures value { MatchOption result (attribute_in text.now ≡ None) (λ a. attribute_in text.now ≡ Some (taken_of a)) }
    ensures inside { MatchOption result ⊤ (λ a. length a.rest.now < length text.now) }
{
    named(first_token(behind_blanks(behind_byte(text, b';')?))?)
}

fn own_attribute(alloc: Global, raw: RawAttribute<'_>) -> Result<Attribute, AllocError>
    ensures { IfOk result (λ a. a ≡ attribute_of raw.entry) }
{
    Ok(Attribute {
        name: Bytes::from_slice(alloc, raw.name)?,
        value: unprotected(alloc, raw.value)?,
    })
}

/// All attributes at the front; none where one of them is malformed.
pub(crate) fn read_attributes<'a>(
    alloc: Global,
    text: &'a [u8],
) -> Result<Option<Attributes<'a>>, AllocError>
    ensures { IfOk result
        (λ all. MatchOption all (attributes_in text.now ≡ None) (λ a. attributes_in text.now ≡ Some (all_taken a))) }
{
    let mut list = List::new(alloc);
    let mut rest = text;
    while is_led_by(rest, b';') {
        let Some(raw) = first_attribute(rest) else {
            return Ok(None);
        };
        list.push(own_attribute(alloc, raw)?)?;
        rest = raw.rest;
    }
    Ok(Some(Attributes { list, rest }))
}
