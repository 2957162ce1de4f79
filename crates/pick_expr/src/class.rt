// Classes of bytes, as they are written.
ghost use Rattle.std.specs.Prelude.{◌≡◌, ◌≤◌, ◌<◌, ◌+◌, ◌∷◌, ◌==◌, ◌&&◌, not, true, length, IfOk};
ghost use Rattle.std.specs.List.{list_all};
ghost use Rattle.pick_expr.specs.Reading.{class_in, class_of, closes as closes_class, is_void as is_void_member, members_in};
ghost use Rattle.pick_expr.specs.Taking.{AreMembers, first_member, IsAtomOf, IsClass, member_len};

use crate::{Atom, ByteSet, Member};
use std::alloc::{AllocError, Global};

/// The members of a class, and the length of their text with the closing bracket.
#[derive(Drop)]
pub(crate) struct ReadMembers {
    pub members: Vec<Member>,
    pub len: usize,
}

/// An atom, and the length of its text without its first byte.
#[derive(Drop)]
pub(crate) struct ReadAtom {
    pub atom: Atom,
    pub len: usize,
}

fn closes(at_start: bool, byte: u8) -> bool
    ensures { result ≡ closes_class at_start byte }
{
    !at_start && byte == b']'
}

/// The member that begins with this byte.
fn member(byte: u8, behind: &[u8]) -> Member
    ensures { result ≡ first_member byte behind.now }
{
    match behind {
        [b'-', last, ..] if *last != b']' => Member::Range(byte, *last),
        _ => Member::Single(byte),
    }
}

fn text_len(member: Member) -> usize
    ensures { result ≡ member_len member }
{
    match member {
        Member::Single(_) => 1,
        Member::Range(_, _) => 3,
    }
}

fn read_members(alloc: Global, text: &[u8]) -> Result<Option<ReadMembers>, AllocError>
    ensures { IfOk result (λ found. AreMembers text.now found) }
{
    let mut members = Vec::new(alloc);
    let mut at = 0;
    while at < text.len() {
        let byte = text[at];
        if closes(at == 0, byte) {
            return Ok(Some(ReadMembers {
                members,
                len: at + 1,
            }));
        }
        let member = member(byte, &text[at + 1..]);
        members.push(member)?;
        at += text_len(member);
    }
    Ok(None)
}

fn is_void(member: Member) -> bool
    ensures { result ≡ is_void_member member }
{
    match member {
        Member::Single(_) => false,
        Member::Range(low, high) => high < low,
    }
}

fn are_void(members: &[Member]) -> bool
    ensures { result ≡ list_all is_void_member members.now }
{
    members.iter().all(|member| is_void(*member))
}

fn class(negated: bool, read: ReadMembers) -> Option<ReadAtom>
    ensures { IsClass negated read result }
{
    let members = read.members.as_slice();
    if are_void(members) {
        return None;
    }
    Some(ReadAtom {
        atom: Atom::Class {
            negated,
            bytes: ByteSet::of(members),
        },
        len: read.len,
    })
}

fn read_class_of(alloc: Global, negated: bool, text: &[u8]) -> Result<Option<ReadAtom>, AllocError>
    ensures { IfOk result (λ found. IsAtomOf (class_of negated (members_in true text.now)) text.now found) }
{
    match read_members(alloc, text)? {
        Some(read) => Ok(class(negated, read)),
        None => Ok(None),
    }
}

/// Reads a class behind its opening bracket.
pub(crate) fn read_class(alloc: Global, text: &[u8]) -> Result<Option<ReadAtom>, AllocError>
    ensures { IfOk result (λ found. IsAtomOf (class_in text.now) text.now found) }
{
    match text.split_first() {
        Some((b'^', members)) => match read_class_of(alloc, true, members)? {
            Some(read) => Ok(Some(ReadAtom {
                atom: read.atom,
                len: read.len + 1,
            })),
            None => Ok(None),
        },
        _ => read_class_of(alloc, false, text),
    }
}
