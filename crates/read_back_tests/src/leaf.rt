// A leaf of a message, as a line: its path, its type and its bytes.
use mh_base::Bytes;
use mime_tree::Part;
use part_rows::MessageParts;
use std::alloc::{AllocError, Global};

/// The digit of a number below ten.
fn digit(number: u64) -> &'static [u8] {
    match number {
        1 => b"1",
        2 => b"2",
        3 => b"3",
        4 => b"4",
        5 => b"5",
        6 => b"6",
        _ => b"?",
    }
}

/// Puts a number behind a path.
pub(crate) fn put_number(path: &mut Bytes, number: u64) -> Result<(), AllocError> {
    path.extend(digit(number))
}

/// Puts a leaf of this path and type, which carries these bytes.
pub(crate) fn put_leaf(
    leaves: &mut Bytes,
    path: &[u8],
    kind: &[u8],
    bytes: &[u8],
) -> Result<(), AllocError> {
    leaves.extend(path)?;
    leaves.extend(b" ")?;
    leaves.extend(kind)?;
    leaves.extend(b": ")?;
    leaves.extend(bytes)?;
    leaves.extend(b"\x01\n")
}

/// Puts a leaf that was read.
fn put_part(
    alloc: Global,
    leaves: &mut Bytes,
    parts: &MessageParts<'_>,
    part: &Part,
) -> Result<(), AllocError> {
    let mut path = Bytes::new(alloc);
    for number in part.path.numbers().as_slice() {
        put_number(&mut path, *number)?;
    }
    let mut kind = Bytes::from_slice(alloc, part.kind.as_str().as_bytes())?;
    kind.extend(b"/")?;
    kind.extend(part.subtype.as_str().as_bytes())?;
    let bytes = parts.content(alloc, part)?;
    put_leaf(leaves, path.as_slice(), kind.as_slice(), bytes.as_slice())
}

/// The leaves of a message, in its order.
pub(crate) fn leaves(alloc: Global, message: &[u8]) -> Result<Bytes, AllocError> {
    let parts = MessageParts::cut(alloc, message)?;
    let mut leaves = Bytes::new(alloc);
    for part in parts.stored(alloc, &[])? {
        put_part(alloc, &mut leaves, &parts, part)?;
    }
    Ok(leaves)
}
