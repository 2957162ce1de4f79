// The parameters of a content type, read.
ghost use Rattle.std.specs.Prelude.{◌≡◌, ◌<◌, ◌≤◌, ⊤, length, MatchOption, Some, None, IfOk, option_map};
ghost use Rattle.mime_tree.specs.Params.{param_in, params_in as all_params, param_named, named_in};
ghost use Rattle.mime_tree.specs.RawParams.{param_of, taken_of};
ghost use Rattle.mime_tree.specs.Words.{word_of};

use crate::token::{Word, behind_sign, first_word, first_worth, unprotected};
use crate::{Param, ParamList};
use mail_text::show_bytes;
use mh_base::List;
use std::alloc::{AllocError, Global};

/// A parameter as it is written, and what follows it.
#[derive(Clone, Copy, Debug)]
pub(crate) struct RawParam<'a> {
    name: &'a [u8],
    value: &'a [u8],
    rest: &'a [u8],
}

fn named(name: Word<'_>) -> Option<RawParam<'_>>
    ensures value { MatchOption result (named_in (word_of name.entry) ≡ None)
        (λ p. named_in (word_of name.entry) ≡ Some (taken_of p)) }
    ensures inside { MatchOption result ⊤ (λ p. length p.rest.now ≤ length name.entry.rest.now) }
{
    let value = first_worth(behind_sign(name.rest, b'=')?)?;
    Some(RawParam {
        name: name.value,
        value: value.value,
        rest: value.rest,
    })
}

/// The parameter at the front, with the semicolon before it.
fn first_param(text: &[u8]) -> Option<RawParam<'_>>
    ensures value { MatchOption result (param_in text.now ≡ None) (λ p. param_in text.now ≡ Some (taken_of p)) }
    ensures inside { MatchOption result ⊤ (λ p. length p.rest.now < length text.now) }
{
    named(first_word(behind_sign(text, b';')?)?)
}

fn shown_param(alloc: Global, raw: RawParam<'_>) -> Result<Param, AllocError>
    ensures { IfOk result (λ p. p ≡ param_of raw.entry) }
{
    let name = show_bytes(alloc, raw.name)?;
    let value = unprotected(alloc, raw.value)?;
    Ok(Param {
        name,
        value: show_bytes(alloc, value.as_slice())?,
    })
}

/// All parameters; none where one of them is malformed.
pub(crate) fn read_params(alloc: Global, text: &[u8]) -> Result<Option<ParamList>, AllocError>
    ensures { IfOk result (λ params. params ≡ all_params text.now) }
{
    let mut params = List::new(alloc);
    let mut rest = text;
    while !rest.is_empty() {
        let Some(raw) = first_param(rest) else {
            return Ok(None);
        };
        params.push(shown_param(alloc, raw)?)?;
        rest = raw.rest;
    }
    Ok(Some(params))
}
