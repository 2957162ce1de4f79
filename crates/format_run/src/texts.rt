// What functions make of texts.
ghost use Rattle.std.specs.Prelude.{◌≡◌, ◌≤◌, ◌<◌, ◌+◌, ◌-◌, ◌*◌, ◌++◌, [], length, min, MatchOption, IfOk, OnOk, option_to_list};
ghost use Rattle.std.specs.List.{suffix_len};
ghost use Rattle.format_run.specs.Texts.{begins as begins_with, is_space, leading_number as leading_number_of, stands_in, trimmed, unquoted};
ghost use Rattle.mh_base.specs.Characters.{is_digit as is_a_digit};

use crate::characters::{characters, text_of};
use memchr::memmem;
use mh_base::Text;
use std::alloc::{AllocError, Global};

/// Whether this piece stands in a text.
pub(crate) fn contains(text: &[u8], piece: &[u8]) -> bool
    ensures { result ≡ stands_in piece.now text.now }
{
    memmem::find(text, piece).is_some()
}

pub(crate) fn begins(text: &[u8], piece: &[u8]) -> bool
    ensures { result ≡ begins_with text.now piece.now }
{
    text.starts_with(piece)
}

fn back_space_len(text: &[char]) -> usize
    ensures value { result ≡ suffix_len is_space text.now }
    ensures inside { result ≤ length text.now }
{
    text.iter().rev().take_while(|c| **c == ' ').count()
}

fn without_back_spaces(text: &[char]) -> &[char]
    ensures { result.now ≡ trimmed text.now }
{
    let (front, _) = text.split_at(text.len() - back_space_len(text));
    front
}

/// The text without the spaces at its end.
pub(crate) fn trim(alloc: Global, text: &Text) -> Result<Text, AllocError>
    ensures { IfOk result (λ t. t ≡ trimmed text.now) }
{
    let all = characters(alloc, text)?;
    text_of(alloc, without_back_spaces(all.as_slice()))
}

/// What the front of a text becomes, and what stands behind it.
fn unquoted_front(text: &[char]) -> Option<(Option<char>, &[char])>
    ensures value { MatchOption result (unquoted text.now ≡ [])
        (λ r. unquoted text.now ≡ option_to_list r.0 ++ unquoted r.1.now) }
    ensures shorter { MatchOption result (length text.now ≡ 0) (λ r. length r.1.now < length text.now) }
{
    match text.split_first() {
        None => None,
        Some(('"', behind)) => Some((None, behind)),
        Some(('\\', behind)) => match behind.split_first() {
            Some((c, rest)) => Some((Some(*c), rest)),
            None => Some((Some('\\'), behind)),
        },
        Some((c, behind)) => Some((Some(*c), behind)),
    }
}

fn put_optional(text: &mut Text, c: Option<char>) -> Result<(), AllocError>
    ensures { OnOk result (text.new ≡ text.old ++ option_to_list c) }
{
    match c {
        Some(c) => text.push(c),
        None => Ok(()),
    }
}

fn unquoted_text(alloc: Global, characters: &[char]) -> Result<Text, AllocError>
    ensures { IfOk result (λ t. t ≡ unquoted characters.now) }
{
    let mut text = Text::new(alloc);
    let mut rest = characters;
    while let Some((c, behind)) = unquoted_front(rest) {
        put_optional(&mut text, c)?;
        rest = behind;
    }
    Ok(text)
}

/// The text without quote marks, and without each backslash before a character.
pub(crate) fn unquote(alloc: Global, text: &Text) -> Result<Text, AllocError>
    ensures { IfOk result (λ t. t ≡ unquoted text.now) }
{
    let all = characters(alloc, text)?;
    unquoted_text(alloc, all.as_slice())
}

fn is_digit(c: char) -> bool
    ensures { result ≡ is_a_digit c }
{
    '0' <= c && c <= '9'
}

const GREATEST: u64 = 9_223_372_036_854_775_807;

/// The number with one digit more, or the greatest one of 64 bits with a sign.
fn with_digit(n: u64, digit: u64) -> u64
    ensures { result ≡ min (n * 10 + digit) 9223372036854775807 }
{
    n.saturating_mul(10).saturating_add(digit).min(GREATEST)
}

fn leading_digits(text: &[char]) -> i64
    ensures { result ≡ leading_number_of text.now }
{
    let mut n: u64 = 0;
    for c in text {
        if !is_digit(*c) {
            return n as i64;
        }
        n = with_digit(n, *c as u64 - 48);
    }
    n as i64
}

/// The number that the digits at the text's front write.
pub(crate) fn leading_number(alloc: Global, text: &Text) -> Result<i64, AllocError>
    ensures { IfOk result (λ n. n ≡ leading_number_of text.now) }
{
    let all = characters(alloc, text)?;
    Ok(leading_digits(all.as_slice()))
}
