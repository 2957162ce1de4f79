// Texts of mail as they are shown.
use mail_text::{Shown, decode_words, show_bytes, strip};
use mh_base::{Bytes, Text};
use row_text::{own, show_quoted, show_quoted_line, word};
use std::alloc::Global;
use std::test::Fail;

fn show_text(text: &Text, told: &mut Bytes) -> Result<(), Fail> {
    show_quoted_line(told, text.as_str().as_bytes())
}

fn show_next(text: &Text, told: &mut Bytes) -> Result<(), Fail> {
    show_quoted(told, text.as_str().as_bytes())?;
    told.extend(b" ")?;
    Ok(())
}

fn shown(alloc: Global, bytes: &[u8], told: &mut Bytes) -> Result<(), Fail> {
    show_text(&show_bytes(alloc, bytes)?, told)
}

fn stripped(alloc: Global, text: &[u8], told: &mut Bytes) -> Result<(), Fail> {
    show_text(&strip(alloc, &own(alloc, text)?)?, told)
}

fn decoded(alloc: Global, text: &[u8], told: &mut Bytes) -> Result<(), Fail> {
    show_text(&decode_words(alloc, &own(alloc, text)?)?, told)
}

/// The name, the mailbox, the host and the comment.
fn parts(alloc: Global, value: &[u8], told: &mut Bytes) -> Result<(), Fail> {
    let shown = Shown::of_address(alloc, &own(alloc, value)?)?;
    show_next(&shown.pers, told)?;
    show_next(&shown.mbox, told)?;
    show_next(&shown.host, told)?;
    show_text(&shown.note, told)
}

/// What is shown of an address, and itself.
fn address(alloc: Global, value: &[u8], told: &mut Bytes) -> Result<(), Fail> {
    let shown = Shown::of_address(alloc, &own(alloc, value)?)?;
    show_next(&shown.friendly(alloc)?, told)?;
    show_text(&shown.addr(alloc)?, told)
}

pub(crate) fn call(alloc: Global, words: &[Bytes], told: &mut Bytes) -> Result<(), Fail> {
    let given = word(words, 2)?;
    match word(words, 1)? {
        b"show" => shown(alloc, given, told),
        b"strip" => stripped(alloc, given, told),
        b"decode" => decoded(alloc, given, told),
        b"parts" => parts(alloc, given, told),
        b"address" => address(alloc, given, told),
        _ => Err("a call of texts".into()),
    }
}
