// Rows of parts, and the files that parts are stored in.
use mh_base::{Bytes, MsgNum};
use mime_tree::{Part, PartPath};
use part_rows::{MessageParts, file_name, header_line, storing_line};
use row_text::{from, own, show_line, show_quoted_line, word};
use std::alloc::Global;
use std::test::Fail;

fn path(alloc: Global, word: &Bytes) -> Result<PartPath, Fail> {
    match PartPath::read(alloc, &own(alloc, word.as_slice())?) {
        Ok(path) => Ok(path),
        Err(_) => Err("a path".into()),
    }
}

/// The paths that words are.
fn paths(alloc: Global, words: &[Bytes]) -> Result<Vec<PartPath>, Fail> {
    let mut paths = Vec::new(alloc);
    for word in words {
        paths.push(path(alloc, word)?)?;
    }
    Ok(paths)
}

fn show_rows(
    alloc: Global,
    number: MsgNum,
    parts: &MessageParts<'_>,
    wanted: &[PartPath],
    told: &mut Bytes,
) -> Result<(), Fail> {
    for row in parts.rows(alloc, number, wanted)?.as_slice() {
        told.extend(row.as_slice())?;
    }
    Ok(())
}

/// The line above the rows, and the rows.
fn list(
    alloc: Global,
    number: MsgNum,
    parts: &MessageParts<'_>,
    wanted: &[PartPath],
    told: &mut Bytes,
) -> Result<(), Fail> {
    let header = header_line(alloc)?;
    told.extend(header.as_slice())?;
    show_rows(alloc, number, parts, wanted, told)
}

/// The line of a part that is stored, and what it carries.
fn store_part(
    alloc: Global,
    number: MsgNum,
    parts: &MessageParts<'_>,
    part: &Part,
    told: &mut Bytes,
) -> Result<(), Fail> {
    let name = file_name(alloc, number, part)?;
    let line = storing_line(alloc, number, part, &name)?;
    told.extend(line.as_slice())?;
    let content = parts.content(alloc, part)?;
    show_quoted_line(told, content.as_slice())
}

fn store(
    alloc: Global,
    number: MsgNum,
    parts: &MessageParts<'_>,
    wanted: &[PartPath],
    told: &mut Bytes,
) -> Result<(), Fail> {
    for part in parts.stored(alloc, wanted)?.as_slice() {
        store_part(alloc, number, parts, part, told)?;
    }
    Ok(())
}

/// How many numbers the first path has that no part has.
fn missing(
    alloc: Global,
    parts: &MessageParts<'_>,
    wanted: &[PartPath],
    told: &mut Bytes,
) -> Result<(), Fail> {
    match parts.first_missing(wanted) {
        Some(path) => {
            let length = path.numbers().len();
            let line = format!(in alloc; "no part at a path of {length}")?;
            show_line(told, line.as_str())
        }
        None => show_line(told, "all are there"),
    }
}

/// Words behind the call's name: the message's number, its bytes, and the paths that are wanted.
pub(crate) fn call(alloc: Global, words: &[Bytes], told: &mut Bytes) -> Result<(), Fail> {
    let number = MsgNum::read(word(words, 2)?).ok_or("a message number")?;
    let parts = MessageParts::cut(alloc, word(words, 3)?)?;
    let wanted = paths(alloc, from(words, 4))?;
    match word(words, 1)? {
        b"list" => list(alloc, number, &parts, wanted.as_slice(), told),
        b"store" => store(alloc, number, &parts, wanted.as_slice(), told),
        b"missing" => missing(alloc, &parts, wanted.as_slice(), told),
        _ => Err("a call of parts".into()),
    }
}
