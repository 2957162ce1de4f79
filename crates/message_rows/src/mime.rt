// Trees of parts.
use mail_text::show_bytes;
use mh_base::Bytes;
use mime_tree::{Odd, Param, Part, PartPath, Tree};
use row_text::{number, own, show_line, show_quoted, show_quoted_line, word};
use std::alloc::{AllocError, Global};
use std::test::Fail;

fn word_of(odd: Odd) -> &'static str {
    match odd {
        Odd::None => "",
        Odd::Unclosed => " [unclosed]",
        Odd::NoBoundary => " [no boundary]",
        Odd::TooDeep => " [too deep]",
    }
}

fn put_path(alloc: Global, path: &PartPath, told: &mut Bytes) -> Result<(), AllocError> {
    for number in path.numbers().as_slice() {
        told.extend(format!(in alloc; ".{number}")?.as_bytes())?;
    }
    Ok(())
}

fn put_line(alloc: Global, part: &Part, told: &mut Bytes) -> Result<(), AllocError> {
    put_path(alloc, &part.path, told)?;
    let (kind, subtype, odd) = (part.kind.as_str(), part.subtype.as_str(), word_of(part.odd));
    told.extend(format!(in alloc; " {kind}/{subtype}{odd}\n")?.as_bytes())
}

/// A line for the part, and then its kids'.
fn put_part(alloc: Global, part: &Part, told: &mut Bytes) -> Result<(), AllocError> {
    put_line(alloc, part, told)?;
    for kid in &part.kids {
        put_part(alloc, kid, told)?;
    }
    Ok(())
}

/// A line for each part: a dot and a number for each step of its path, its type, and what is odd.
fn outline(alloc: Global, message: &[u8], told: &mut Bytes) -> Result<(), Fail> {
    let tree = Tree::cut(alloc, message)?;
    Ok(put_part(alloc, tree.root(), told)?)
}

/// What the part carries, as a reader sees it.
fn show_content(alloc: Global, tree: &Tree<'_>, part: &Part, told: &mut Bytes) -> Result<(), Fail> {
    let content = tree.content(alloc, part)?;
    let text = show_bytes(alloc, content.as_slice())?;
    show_quoted_line(told, text.as_str().as_bytes())
}

fn show_below(
    alloc: Global,
    tree: &Tree<'_>,
    path: &PartPath,
    told: &mut Bytes,
) -> Result<(), Fail> {
    match tree.part(path) {
        Some(part) => show_content(alloc, tree, part, told),
        None => show_line(told, "no part"),
    }
}

fn show_at(alloc: Global, tree: &Tree<'_>, path: &[u8], told: &mut Bytes) -> Result<(), Fail> {
    match PartPath::read(alloc, &own(alloc, path)?) {
        Ok(path) => show_below(alloc, tree, &path, told),
        Err(_) => show_line(told, "no path"),
    }
}

/// What the part at a path carries, or the root where the path is empty.
fn content(alloc: Global, message: &[u8], path: &[u8], told: &mut Bytes) -> Result<(), Fail> {
    let tree = Tree::cut(alloc, message)?;
    if path.is_empty() {
        return show_content(alloc, &tree, tree.root(), told);
    }
    show_at(alloc, &tree, path, told)
}

fn show_param(param: &Param, told: &mut Bytes) -> Result<(), Fail> {
    told.extend(param.name.as_str().as_bytes())?;
    told.extend(b"=")?;
    show_quoted(told, param.value.as_str().as_bytes())?;
    told.extend(b"; ")?;
    Ok(())
}

/// The parameters of a message.
fn params(alloc: Global, message: &[u8], told: &mut Bytes) -> Result<(), Fail> {
    let tree = Tree::cut(alloc, message)?;
    for param in tree.root().params.as_slice() {
        show_param(param, told)?;
    }
    show_line(told, "and no more")
}

/// The numbers of a path, as an outline has them.
fn path(alloc: Global, word: &[u8], told: &mut Bytes) -> Result<(), Fail> {
    match PartPath::read(alloc, &own(alloc, word)?) {
        Ok(path) => put_path(alloc, &path, told)?,
        Err(_) => told.extend(b"no path")?,
    }
    show_line(told, "")
}

/// So many multiparts, one in the other, each with a boundary of its own, and a text in the last.
fn nested(alloc: Global, count: u64) -> Result<Bytes, AllocError> {
    let mut text = Bytes::new(alloc);
    for i in 0..count {
        let front = format!(in alloc; "Content-Type: multipart/mixed; boundary=b{i}\n\n--b{i}\n")?;
        text.extend(front.as_bytes())?;
    }
    text.extend(b"\nhi\n")?;
    Ok(text)
}

/// So many messages, one in the other.
fn in_messages(alloc: Global, count: u64) -> Result<Bytes, AllocError> {
    let mut text = Bytes::new(alloc);
    for _ in 0..count {
        text.extend(b"Content-Type: message/rfc822\n\n")?;
    }
    text.extend(b"\nhi\n")?;
    Ok(text)
}

fn outline_nested(alloc: Global, count: &[u8], told: &mut Bytes) -> Result<(), Fail> {
    let message = nested(alloc, number(count)?)?;
    outline(alloc, message.as_slice(), told)
}

fn outline_messages(alloc: Global, count: &[u8], told: &mut Bytes) -> Result<(), Fail> {
    let message = in_messages(alloc, number(count)?)?;
    outline(alloc, message.as_slice(), told)
}

pub(crate) fn call(alloc: Global, words: &[Bytes], told: &mut Bytes) -> Result<(), Fail> {
    let given = word(words, 2)?;
    match word(words, 1)? {
        b"outline" => outline(alloc, given, told),
        b"content" => content(alloc, given, word(words, 3)?, told),
        b"params" => params(alloc, given, told),
        b"path" => path(alloc, given, told),
        b"nested" => outline_nested(alloc, given, told),
        b"messages" => outline_messages(alloc, given, told),
        _ => Err("a call of parts".into()),
    }
}
