// What is told of values.
use crate::{show_quoted, text};
use mh_base::{Bytes, Text, TextList};
use std::alloc::Global;
use std::test::Fail;

/// In decimal.
pub fn show_number(alloc: Global, told: &mut Bytes, n: u64) -> Result<(), Fail> {
    told.extend(format!(in alloc; "{n}")?.as_bytes())?;
    Ok(())
}

/// The text, and a line's end.
pub fn show_line(told: &mut Bytes, line: &str) -> Result<(), Fail> {
    told.extend(line.as_bytes())?;
    told.extend(b"\n")?;
    Ok(())
}

/// Bytes as a word in quotes, and a line's end.
pub fn show_quoted_line(told: &mut Bytes, bytes: &[u8]) -> Result<(), Fail> {
    show_quoted(told, bytes)?;
    told.extend(b"\n")?;
    Ok(())
}

/// `yes` or `no`, and a line's end.
pub fn show_whether(told: &mut Bytes, holds: bool) -> Result<(), Fail> {
    show_line(told, if holds { "yes" } else { "no" })
}

/// The words from this place on.
pub fn from(words: &[Bytes], place: usize) -> &[Bytes] {
    words.get(place..).unwrap_or(&[])
}

/// The place of the first slash.
fn slash(words: &[Bytes]) -> usize {
    for (place, word) in words.iter().enumerate() {
        if word.as_slice() == b"/".as_slice() {
            return place;
        }
    }
    words.len()
}

/// The words before a slash, and those behind it.
pub fn halves(words: &[Bytes]) -> (&[Bytes], &[Bytes]) {
    let place = slash(words);
    let before = words.get(..place).unwrap_or(&[]);
    (before, from(from(words, place), 1))
}

/// A word as a text of its own.
pub fn own(alloc: Global, word: &[u8]) -> Result<Text, Fail> {
    Ok(Text::from_str(alloc, text(word)?)?)
}

/// Words as texts of their own.
pub fn texts(alloc: Global, words: &[Bytes]) -> Result<TextList, Fail> {
    let mut list = TextList::new(alloc);
    for word in words {
        list.push(own(alloc, word.as_slice())?)?;
    }
    Ok(list)
}
