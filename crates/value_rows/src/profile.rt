// Profiles and their entries.
use mh_base::Bytes;
use mh_profile::{Entries, is_field_name, is_unfolded};
use row_text::{from, show_number, show_quoted, show_quoted_line, show_whether, text, word};
use std::alloc::{AllocError, Global};
use std::test::Fail;

/// How many entries there are, and their text.
fn show(alloc: Global, entries: &Entries, told: &mut Bytes) -> Result<(), Fail> {
    show_number(alloc, told, entries.len())?;
    told.extend(b" ")?;
    show_quoted_line(told, entries.print(alloc)?.as_slice())
}

/// The names at all places.
fn show_names(entries: &Entries, told: &mut Bytes) -> Result<(), Fail> {
    for place in 0..u64::MAX {
        match entries.name_at(place) {
            Some(name) => show_quoted(told, name.as_slice())?,
            None => break,
        }
        told.extend(b" ")?;
    }
    told.extend(b"and no more\n")?;
    Ok(())
}

fn show_value(entries: &Entries, name: &Bytes, told: &mut Bytes) -> Result<(), Fail> {
    match entries.get(name.as_slice())? {
        Some(value) => show_quoted_line(told, value.as_slice()),
        None => show_whether(told, false),
    }
}

fn show_values(entries: &Entries, names: &[Bytes], told: &mut Bytes) -> Result<(), Fail> {
    for name in names {
        show_value(entries, name, told)?;
    }
    Ok(())
}

fn set(alloc: Global, entries: &mut Entries, name: &str, value: &str) -> Result<(), Fail> {
    if !is_field_name(name.as_bytes()) || !is_unfolded(value.as_bytes()) {
        return Err("a name and a value".into());
    }
    let name = Bytes::from_slice(alloc, name.as_bytes())?;
    let value = Bytes::from_slice(alloc, value.as_bytes())?;
    Ok(entries.set(name, value)?)
}

/// `name=value` sets an entry, and another word removes the one of its name.
fn change(alloc: Global, entries: &mut Entries, word: &[u8]) -> Result<(), Fail> {
    match text(word)?.split_once('=') {
        Some((name, value)) => set(alloc, entries, name, value),
        None => Ok(entries.remove(word)?),
    }
}

fn show_changed(
    alloc: Global,
    mut entries: Entries,
    changes: &[Bytes],
    told: &mut Bytes,
) -> Result<(), Fail> {
    for word in changes {
        change(alloc, &mut entries, word.as_slice())?;
    }
    show(alloc, &entries, told)
}

fn show_without(
    alloc: Global,
    mut entries: Entries,
    names: &[Bytes],
    told: &mut Bytes,
) -> Result<(), Fail> {
    let mut gone = Vec::new(alloc);
    for name in names {
        gone.push(name.as_slice())?;
    }
    entries.remove_all(gone.as_slice())?;
    show(alloc, &entries, told)
}

fn show_field_names(names: &[Bytes], told: &mut Bytes) -> Result<(), Fail> {
    for name in names {
        show_whether(told, is_field_name(name.as_slice()))?;
    }
    Ok(())
}

fn show_unfolded(values: &[Bytes], told: &mut Bytes) -> Result<(), Fail> {
    for value in values {
        show_whether(told, is_unfolded(value.as_slice()))?;
    }
    Ok(())
}

/// The text of so many entries, each folded.
fn large(alloc: Global, count: u64) -> Result<String, AllocError> {
    let mut text = String::new(alloc);
    for number in 0..count {
        let line = format!(in alloc; "name-{number}: the value\n  of number {number}\n")?;
        text.push_str(line.as_str())?;
    }
    Ok(text)
}

fn show_large(alloc: Global, count: &[u8], names: &[Bytes], told: &mut Bytes) -> Result<(), Fail> {
    let text = large(alloc, row_text::number(count)?)?;
    let entries = Entries::read(alloc, text.as_bytes())?;
    show_number(alloc, told, entries.len())?;
    told.extend(b"\n")?;
    show_values(&entries, names, told)
}

/// The entries of a text, and what is asked of them.
fn read(alloc: Global, words: &[Bytes], told: &mut Bytes) -> Result<(), Fail> {
    let entries = Entries::read(alloc, word(words, 2)?)?;
    let rest = from(words, 3);
    match word(words, 1)? {
        b"print" => show_changed(alloc, entries, rest, told),
        b"names" => show_names(&entries, told),
        b"get" => show_values(&entries, rest, told),
        b"without" => show_without(alloc, entries, rest, told),
        _ => Err("a call of the profile".into()),
    }
}

pub(crate) fn call(alloc: Global, words: &[Bytes], told: &mut Bytes) -> Result<(), Fail> {
    match word(words, 1)? {
        b"new" => show(alloc, &Entries::new(alloc), told),
        b"is-name" => show_field_names(from(words, 2), told),
        b"is-unfolded" => show_unfolded(from(words, 2), told),
        b"large" => show_large(alloc, word(words, 2)?, from(words, 3), told),
        _ => read(alloc, words, told),
    }
}
