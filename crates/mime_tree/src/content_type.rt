// The type of a part.
ghost use Rattle.std.specs.Prelude.{◌≡◌, IfOk, Some, None, MatchOption, length, option_and_then};
ghost use Rattle.std.specs.Str.{chars, encode_utf8_all};
ghost use Rattle.mime_tree.specs.ContentTypes.{halves_in, type_in, fallback_type, named_type, type_of_message, is_word, is_multipart, is_message, is_digest, fallback_in, param_value, usable as usable_boundary, boundary_of};
ghost use Rattle.mime_tree.specs.Words.{halves_of};

use crate::ParamList;
use crate::fallback::Fallback;
use crate::gap::behind_gap;
use crate::names::same_name;
use crate::params::read_params;
use crate::token::{Word, behind_sign, first_word};
use mail_headers::{Message, unfold};
use mail_text::show_bytes;
use mh_base::{List, Text};
use std::alloc::{AllocError, Global};

/// A type, its subtype, and their parameters.
#[derive(Drop)]
pub(crate) struct ContentType {
    pub(crate) kind: Text,
    pub(crate) subtype: Text,
    pub(crate) params: ParamList,
}

/// The words before and behind the slash.
#[derive(Clone, Copy, Debug)]
pub(crate) struct RawType<'a> {
    kind: Word<'a>,
    subtype: Word<'a>,
}

fn halves(value: &[u8]) -> Option<RawType<'_>>
    ensures { MatchOption result (halves_in value.now ≡ None) (λ t. halves_in value.now ≡ Some (halves_of t)) }
{
    let kind = first_word(behind_gap(value)?)?;
    let subtype = first_word(behind_sign(kind.rest, b'/')?)?;
    Some(RawType { kind, subtype })
}

#[tactic(auto, unfolding(crate::specs::ContentTypes::type_in))]
fn read_type(alloc: Global, value: &[u8]) -> Result<Option<ContentType>, AllocError>
    ensures { IfOk result (λ t. t ≡ type_in value.now) }
{
    let Some(raw) = halves(value) else {
        return Ok(None);
    };
    let Some(params) = read_params(alloc, raw.subtype.rest)? else {
        return Ok(None);
    };
    Ok(Some(ContentType {
        kind: show_bytes(alloc, raw.kind.value)?,
        subtype: show_bytes(alloc, raw.subtype.value)?,
        params,
    }))
}

fn fallback_type_of(alloc: Global, fallback: Fallback) -> Result<ContentType, AllocError>
    ensures { IfOk result (λ t. t ≡ fallback_type fallback) }
{
    let (kind, subtype) = match fallback {
        Fallback::TextPlain => ("text", "plain"),
        Fallback::WholeMessage => ("message", "rfc822"),
    };
    Ok(ContentType {
        kind: Text::from_str(alloc, kind)?,
        subtype: Text::from_str(alloc, subtype)?,
        params: List::new(alloc),
    })
}

fn named(alloc: Global, message: &Message<'_>) -> Result<Option<ContentType>, AllocError>
    ensures { IfOk result (λ t. t ≡ named_type message.now) }
{
    match message.first(b"Content-Type") {
        Some(value) => {
            let unfolded = unfold(alloc, value)?;
            read_type(alloc, unfolded.as_slice())
        }
        None => Ok(None),
    }
}

fn is_named(text: &Text, word: &[u8]) -> bool
    ensures { result ≡ is_word text.now word.now }
{
    same_name(text.as_str().as_bytes(), word)
}

#[tactic(auto, unfolding(crate::specs::ContentTypes::param_value))]
fn first_value<'a>(params: &'a ParamList, name: &[u8]) -> Option<&'a Text>
    ensures { MatchOption result (param_value name.now params.now ≡ None)
        (λ v. param_value name.now params.now ≡ Some v.now) }
{
    for param in params.as_slice() {
        if is_named(&param.name, name) {
            return Some(&param.value);
        }
    }
    None
}

fn char_count(text: &str) -> usize
    ensures { result ≡ length (chars text.now) }
{
    text.chars().count()
}

fn usable(value: &Text) -> Option<&[u8]>
    ensures { MatchOption result (usable_boundary value.now ≡ None) (λ b. usable_boundary value.now ≡ Some b.now) }
{
    let text = value.as_str();
    let count = char_count(text);
    if 1 <= count && count <= 70 {
        Some(text.as_bytes())
    } else {
        None
    }
}

impl ContentType {
    /// The type of a message, which is a given one where it names none.
    #[tactic(auto, unfolding(crate::specs::ContentTypes::type_of_message))]
    pub(crate) fn of_message(
        alloc: Global,
        message: &Message<'_>,
        fallback: Fallback,
    ) -> Result<ContentType, AllocError>
        ensures { IfOk result (λ t. t ≡ type_of_message fallback message.now) }
    {
        match named(alloc, message)? {
            Some(content_type) => Ok(content_type),
            None => fallback_type_of(alloc, fallback),
        }
    }

    #[tactic(auto, unfolding(crate::specs::ContentTypes::is_multipart))]
    pub(crate) fn is_multipart(&self) -> bool
        ensures { result ≡ is_multipart self.now }
    {
        is_named(&self.kind, b"multipart")
    }

    #[tactic(auto, unfolding(crate::specs::ContentTypes::is_message))]
    pub(crate) fn is_message(&self) -> bool
        ensures { result ≡ is_message self.now }
    {
        is_named(&self.kind, b"message") && is_named(&self.subtype, b"rfc822")
    }

    #[tactic(auto, unfolding(crate::specs::ContentTypes::is_digest))]
    fn is_digest(&self) -> bool
        ensures { result ≡ is_digest self.now }
    {
        is_named(&self.kind, b"multipart") && is_named(&self.subtype, b"digest")
    }

    /// What a part within one of this type is where it names no type.
    pub(crate) fn fallback(&self) -> Fallback
        ensures { result ≡ fallback_in self.now }
    {
        if self.is_digest() {
            Fallback::WholeMessage
        } else {
            Fallback::TextPlain
        }
    }

    /// The boundary, where there is one to cut by.
    #[tactic(auto, unfolding(crate::specs::ContentTypes::boundary_of))]
    pub(crate) fn boundary(&self) -> Option<&[u8]>
        ensures { MatchOption result (boundary_of self.now.params ≡ None)
            (λ b. boundary_of self.now.params ≡ Some b.now) }
    {
        usable(first_value(&self.params, b"boundary")?)
    }
}
