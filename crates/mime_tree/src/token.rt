// Tokens and quoted strings.
ghost use Rattle.std.specs.Prelude.{◌≡◌, ◌==◌, ◌&&◌, not, List, ℕ, ◌∷◌, ◌++◌, ◌≤◌, ◌<◌, ⊤, false, length, drop, MatchOption, Some, None, IfOk, option_and_then};
ghost use Rattle.std.specs.List.{prefix_len};
ghost use Rattle.mime_tree.specs.Tokens.{is_token as is_token_byte, token_in, closing, quoted_in, worth_in, unprotected_at, unprotected as without_protection, with_gap as gap_behind, behind_sign as sign_rest, word_in};
ghost use Rattle.mime_tree.specs.Words.{word_of};

use crate::gap::behind_gap;
use mh_base::Bytes;
use std::alloc::{AllocError, Global};

/// A word, and what follows it.
#[derive(Clone, Copy, Debug)]
pub struct Word<'a> {
    pub value: &'a [u8],
    pub rest: &'a [u8],
}

fn is_token(byte: u8) -> bool
    ensures { result ≡ is_token_byte byte }
{
    33 <= byte && byte <= 126 && !b"()<>@,;:\\\"/[]?=".contains(&byte)
}

fn token_len(text: &[u8]) -> usize
    ensures value { result ≡ prefix_len is_token_byte text.now }
    ensures inside { result ≤ length text.now }
{
    text.iter().take_while(|byte| is_token(**byte)).count()
}

/// A quote mark that closes a string.
fn closes(protected: bool, byte: u8) -> bool
    ensures { result ≡ (not protected && byte == 34) }
{
    !protected && byte == b'"'
}

/// A backslash that protects the next byte.
fn protects(protected: bool, byte: u8) -> bool
    ensures { result ≡ (not protected && byte == 92) }
{
    !protected && byte == b'\\'
}

/// The place of the quote mark that closes a string.
fn closing_place(text: &[u8]) -> Option<usize>
    ensures value { result ≡ closing false text.now }
    ensures inside { MatchOption result ⊤ (λ n. n < length text.now) }
{
    let mut protected = false;
    for (i, byte) in text.iter().enumerate() {
        if closes(protected, *byte) {
            return Some(i);
        }
        protected = protects(protected, *byte);
    }
    None
}

/// The token at the front.
pub fn first_token(text: &[u8]) -> Option<Word<'_>>
    ensures value { MatchOption result (token_in text.now ≡ None) (λ w. token_in text.now ≡ Some (word_of w)) }
    ensures inside { MatchOption result ⊤ (λ w. length w.rest.now ≤ length text.now) }
{
    let len = token_len(text);
    if len == 0 {
        return None;
    }
    let (value, rest) = text.split_at(len);
    Some(Word { value, rest })
}

/// The inside of the quoted string at the front, of which the first mark has been passed.
pub fn quoted(text: &[u8]) -> Option<Word<'_>>
    ensures value { MatchOption result (quoted_in text.now ≡ None) (λ w. quoted_in text.now ≡ Some (word_of w)) }
    ensures inside { MatchOption result ⊤ (λ w. length w.rest.now ≤ length text.now) }
{
    let len = closing_place(text)?;
    let (value, _) = text.split_at(len);
    let (_, rest) = text.split_at(len + 1);
    Some(Word { value, rest })
}

fn with_gap(word: Word<'_>) -> Option<Word<'_>>
    ensures value { MatchOption result (gap_behind (word_of word.entry) ≡ None)
        (λ w. gap_behind (word_of word.entry) ≡ Some (word_of w)) }
    ensures inside { MatchOption result ⊤ (λ w. length w.rest.now ≤ length word.entry.rest.now) }
{
    Some(Word {
        value: word.value,
        rest: behind_gap(word.rest)?,
    })
}

/// The token or the quoted string at the front, with the gap behind it.
pub(crate) fn first_worth(text: &[u8]) -> Option<Word<'_>>
    ensures value { MatchOption result (option_and_then gap_behind (worth_in text.now) ≡ None)
        (λ w. option_and_then gap_behind (worth_in text.now) ≡ Some (word_of w)) }
    ensures inside { MatchOption result ⊤ (λ w. length w.rest.now ≤ length text.now) }
{
    match text.split_first() {
        Some((b'"', inside)) => with_gap(quoted(inside)?),
        _ => with_gap(first_token(text)?),
    }
}

/// The token at the front, with the gap behind it.
pub(crate) fn first_word(text: &[u8]) -> Option<Word<'_>>
    ensures value { MatchOption result (word_in text.now ≡ None) (λ w. word_in text.now ≡ Some (word_of w)) }
    ensures inside { MatchOption result ⊤ (λ w. length w.rest.now ≤ length text.now) }
{
    with_gap(first_token(text)?)
}

/// What follows this sign and the gap behind it.
pub(crate) fn behind_sign(text: &[u8], sign: u8) -> Option<&[u8]>
    ensures value { MatchOption result (sign_rest sign text.now ≡ None)
        (λ rest. sign_rest sign text.now ≡ Some rest.now) }
    ensures inside { MatchOption result ⊤ (λ rest. length rest.now < length text.now) }
{
    match text.split_first() {
        Some((first, rest)) if *first == sign => behind_gap(rest),
        _ => None,
    }
}

/// Adds the byte unless it protects the next; whether it does is returned.
#[tactic(auto, unfolding(crate::specs::Tokens::unprotected_at))]
fn keep(bytes: &mut Vec<u8>, protected: bool, byte: u8) -> Result<bool, AllocError>
    ensures { IfOk result
        (λ p. (rest : List ℕ)
        → bytes.new.items ++ unprotected_at p rest ≡ bytes.old.items ++ unprotected_at protected (byte ∷ rest)) }
{
    if protects(protected, byte) {
        Ok(true)
    } else {
        bytes.push(byte)?;
        Ok(false)
    }
}

/// The text without the backslashes that protect.
pub fn unprotected(alloc: Global, text: &[u8]) -> Result<Bytes, AllocError>
    ensures { IfOk result (λ b. b ≡ without_protection text.now) }
{
    let mut bytes = Vec::new(alloc);
    let mut protected = false;
    for byte in text {
        protected = keep(&mut bytes, protected, *byte)?;
    }
    Ok(Bytes::from_vec(bytes))
}
