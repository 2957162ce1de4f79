// Lines of formats for a message.
use format_compiler::{FormatFault, Program, compile};
use format_run::{IndexedMessage, View, line};
use mh_base::{Bytes, MsgNum, Text};
use row_text::{number, own, show_line, show_quoted_line, word};
use std::alloc::Global;
use std::test::Fail;

/// The moment at which messages are looked at: 2026-06-02 10:00:00 UTC.
const NOW: i64 = 1_780_394_400;

/// What is looked at, by its words: the message's number, how it stands, in how many columns, and its bytes.
fn view<'a>(alloc: Global, view: &'a [Bytes], user: &'a Text) -> Result<View<'a>, Fail> {
    let stands = word(view, 2)?;
    Ok(View {
        number: MsgNum::read(word(view, 1)?).ok_or("a message number")?,
        current: stands == b"current".as_slice(),
        unseen: stands == b"unseen".as_slice(),
        message: IndexedMessage::cut(alloc, word(view, 4)?)?,
        moment: NOW,
        user,
    })
}

fn show(alloc: Global, program: &Program, words: &[Bytes], told: &mut Bytes) -> Result<(), Fail> {
    let user = own(alloc, b"bob")?;
    let view = view(alloc, words, &user)?;
    let width = u32::try_from(number(word(words, 3)?)?)
        .ok()
        .ok_or("a width")?;
    let line = line(alloc, program, &view, width)?;
    show_quoted_line(told, line.as_str().as_bytes())
}

/// The line of a format for what is looked at, or where the format is wrong.
pub(crate) fn call(
    alloc: Global,
    view: &[Bytes],
    words: &[Bytes],
    told: &mut Bytes,
) -> Result<(), Fail> {
    match compile(alloc, word(words, 1)?) {
        Ok(program) => show(alloc, &program, view, told),
        Err(FormatFault::Bad(at)) => show_line(told, format!(in alloc; "bad {at}")?.as_str()),
        Err(FormatFault::Memory) => Err("memory".into()),
    }
}
