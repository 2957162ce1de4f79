// The last column of a part's row.
ghost use Rattle.std.specs.Prelude.{◌≡◌, IfOk, OnOk};
ghost use Rattle.part_rows.specs.PartViews.{description_by, description_of, view_of};
ghost use Rattle.part_rows.specs.Rows.{beside, note_of};

use crate::spans::message_of;
use crate::texts::{is_empty, put_bytes};
use mail_headers::{Message, unfold};
use mail_text::{decode_words, show_bytes, strip};
use mh_base::Text;
use mime_tree::{Odd, Part};
use std::alloc::{AllocError, Global};

/// A field's value on one line, with the characters of its encoded words.
fn described(alloc: Global, value: &[u8]) -> Result<Text, AllocError>
    ensures { IfOk result (λ text. text ≡ description_by (Some value.now)) }
{
    let value = unfold(alloc, value)?;
    let shown = show_bytes(alloc, value.as_slice())?;
    let words = decode_words(alloc, &shown)?;
    strip(alloc, &words)
}

/// How a message describes itself.
fn description(alloc: Global, message: &Message<'_>) -> Result<Text, AllocError>
    ensures { IfOk result (λ text. text ≡ description_of message.now) }
{
    match message.first(b"Content-Description") {
        None => Ok(Text::new(alloc)),
        Some(value) => described(alloc, value),
    }
}

fn note(odd: Odd) -> &'static [u8]
    ensures { result.now ≡ note_of odd }
{
    match odd {
        Odd::None => b"",
        Odd::Unclosed => b"[unclosed]",
        Odd::NoBoundary => b"[no boundary]",
        Odd::TooDeep => b"[too deep]",
    }
}

/// Adds a note, behind a space where something stands before it.
fn put_note(text: &mut Text, note: &[u8]) -> Result<(), AllocError>
    ensures { OnOk result (text.new ≡ beside text.old note.now) }
{
    if note.is_empty() {
        return Ok(());
    }
    if !is_empty(text) {
        text.push(' ')?;
    }
    put_bytes(text, note)
}

/// The part's description, and what is odd about the part.
pub(crate) fn last_column(alloc: Global, bytes: &[u8], part: &Part) -> Result<Text, AllocError>
    ensures { IfOk result
        (λ text. text ≡ beside (view_of bytes.now part.now).description (note_of (view_of bytes.now part.now).odd)) }
{
    let message = Message::cut(message_of(bytes, part));
    let mut text = description(alloc, &message)?;
    put_note(&mut text, note(part.odd))?;
    Ok(text)
}
