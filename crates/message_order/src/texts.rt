// Texts of fields, as they are compared.
ghost use Rattle.std.specs.Prelude.{◌≡◌, IfOk, List, ℕ, length, drop, ◌≤◌};
ghost use Rattle.std.specs.List.{prefix_len};
ghost use Rattle.message_order.specs.Texts.{begins_reply as begins_a_reply, IsBehindReplies, key_of};
ghost use Rattle.mh_base.specs.Characters.{is_blank as is_a_blank};

use std::alloc::{AllocError, Global};

/// The ASCII letters of an unfolded field, in lower case, and its digits.
pub fn text_key(alloc: Global, text: &[u8]) -> Result<Vec<u8>, AllocError>
    ensures { IfOk result (λ key. key.items ≡ key_of text.now) }
{
    let mut key = Vec::new(alloc);
    for byte in text {
        if byte.is_ascii_alphanumeric() {
            key.push(byte.to_ascii_lowercase())?;
        }
    }
    Ok(key)
}

fn is_blank(byte: u8) -> bool
    ensures { result ≡ is_a_blank byte }
{
    byte == b' ' || byte == b'\t'
}

fn blank_len(text: &[u8]) -> usize
    ensures value { result ≡ prefix_len is_a_blank text.now }
    ensures inside { result ≤ length text.now }
{
    text.iter().take_while(|byte| is_blank(**byte)).count()
}

/// The length of `re:`.
const MARK_LEN: usize = 3;

fn begins_reply(text: &[u8]) -> bool
    ensures { result ≡ begins_a_reply text.now }
{
    let (front, _) = text.split_at(MARK_LEN.min(text.len()));
    front.eq_ignore_ascii_case(b"re:")
}

/// What stands behind each `re:` at the front, and the spaces and tabs behind it.
fn behind_replies(text: &[u8]) -> &[u8]
    ensures { IsBehindReplies text.now result.now }
{
    let mut rest = text;
    while begins_reply(rest) {
        let (_, behind) = rest.split_at(MARK_LEN.min(rest.len()));
        let (_, next) = behind.split_at(blank_len(behind));
        rest = next;
    }
    rest
}

/// The same of a subject, without each `re:` at its front.
pub fn subject_key(alloc: Global, text: &[u8]) -> Result<Vec<u8>, AllocError>
    ensures { IfOk result (λ key. (rest : List ℕ) × IsBehindReplies text.now rest × (key.items ≡ key_of rest)) }
{
    text_key(alloc, behind_replies(text))
}
