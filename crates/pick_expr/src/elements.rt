// The elements of a pattern, as they are written.
ghost use Rattle.std.specs.Prelude.{◌≡◌, ◌≤◌, ◌==◌, ◌&&◌, Some, length, drop, IfOk, IfSome};
ghost use Rattle.pick_expr.specs.Reading.{atom_in, element_in, escaped as escaped_in, elements_in, is_last, starred_by};
ghost use Rattle.pick_expr.specs.Taking.{AreElements, IsAtomOf, IsElementOf};

use crate::class::{ReadAtom, read_class};
use crate::{Atom, Element};
use mh_base::List;
use std::alloc::{AllocError, Global};

/// An element, and the length of its text without its first byte.
#[derive(Drop)]
pub(crate) struct ReadElement {
    pub element: Element,
    pub len: usize,
}

/// Elements, and whether a dollar sign stands behind them.
#[derive(Drop)]
pub(crate) struct ReadElements {
    pub elements: List<Element>,
    pub to_end: bool,
}

/// The atom behind a backslash.
fn escaped(text: &[u8]) -> ReadAtom
    ensures { IsAtomOf (Some (escaped_in text.now)) text.now (Some result) }
{
    match text.first() {
        Some(byte) => ReadAtom {
            atom: Atom::Byte(*byte),
            len: 1,
        },
        None => ReadAtom {
            atom: Atom::Byte(b'\\'),
            len: 0,
        },
    }
}

/// The atom that begins with this byte.
fn read_atom(alloc: Global, byte: u8, text: &[u8]) -> Result<Option<ReadAtom>, AllocError>
    ensures { IfOk result (λ found. IsAtomOf (atom_in byte text.now) text.now found) }
{
    match byte {
        b'.' => Ok(Some(ReadAtom {
            atom: Atom::Any,
            len: 0,
        })),
        b'[' => read_class(alloc, text),
        b'\\' => Ok(Some(escaped(text))),
        _ => Ok(Some(ReadAtom {
            atom: Atom::Byte(byte),
            len: 0,
        })),
    }
}

/// An atom with the star behind it, if there is one.
fn starred(read: ReadAtom, text: &[u8]) -> ReadElement
    requires { read.len ≤ length text.now }
    ensures { IsElementOf (Some (starred_by read.atom (drop read.len text.now))) text.now (Some result) }
{
    if text[read.len..].first() == Some(&b'*') {
        ReadElement {
            element: Element::AnyNumber(read.atom),
            len: read.len + 1,
        }
    } else {
        ReadElement {
            element: Element::Once(read.atom),
            len: read.len,
        }
    }
}

/// The element that begins with this byte.
fn read_element(alloc: Global, byte: u8, text: &[u8]) -> Result<Option<ReadElement>, AllocError>
    ensures { IfOk result (λ found. IsElementOf (element_in byte text.now) text.now found) }
{
    if byte == b'*' {
        return Ok(Some(ReadElement {
            element: Element::Once(Atom::Byte(b'*')),
            len: 0,
        }));
    }
    match read_atom(alloc, byte, text)? {
        Some(read) => Ok(Some(starred(read, text))),
        None => Ok(None),
    }
}

/// Whether a dollar sign stands at the end.
fn is_anchor(byte: u8, behind: &[u8]) -> bool
    ensures { result ≡ (byte == 36 && is_last behind.now) }
{
    byte == b'$' && behind.is_empty()
}

/// The elements that a text is, of which there are 127 at most.
pub(crate) fn read_elements(alloc: Global, text: &[u8]) -> Result<Option<ReadElements>, AllocError>
    ensures elements { IfOk result (λ found. AreElements (elements_in 127 text.now) found) }
    ensures few { IfOk result (λ found. IfSome found (λ es. length es.elements ≤ 127)) }
{
    let mut elements = List::new(alloc);
    let mut at = 0;
    while at < text.len() {
        let byte = text[at];
        let behind = &text[at + 1..];
        if is_anchor(byte, behind) {
            return Ok(Some(ReadElements {
                elements,
                to_end: true,
            }));
        }
        if elements.len() == 127 {
            return Ok(None);
        }
        match read_element(alloc, byte, behind)? {
            Some(read) => {
                elements.push(read.element)?;
                at += 1 + read.len;
            }
            None => return Ok(None),
        }
    }
    Ok(Some(ReadElements {
        elements,
        to_end: false,
    }))
}
