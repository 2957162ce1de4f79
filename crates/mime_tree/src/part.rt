// Parts.
ghost use Rattle.std.specs.Prelude.{◌≡◌, Some, None, MatchOption, IfOk};
ghost use Rattle.mime_tree.specs.Trees.{content_of, kid_of, part_at};

use crate::{Encoding, Odd, ParamList, PartPath, Span};
use mh_base::{Bytes, Text};
use std::alloc::{AllocError, Global};

pub type PartList = Vec<Part>;

/// A part of a message: a message of its own within the message.
#[derive(Drop)]
pub struct Part {
    /// The way from the root.
    pub path: PartPath,
    pub kind: Text,
    pub subtype: Text,
    /// As they are written; of several of one name the first counts.
    pub params: ParamList,
    pub encoding: Encoding,
    /// The header, with the empty line behind it.
    pub head: Span,
    pub body: Span,
    pub odd: Odd,
    pub kids: PartList,
}

impl Part {
    /// The kid of this number, from 1.
    fn kid(&self, number: u64) -> Option<&Part>
        ensures { MatchOption result (kid_of number self.now ≡ None) (λ p. kid_of number self.now ≡ Some p.now) }
    {
        if number == 0 {
            return None;
        }
        self.kids.get((number - 1) as usize)
    }

    /// The part at this path below this one.
    pub(crate) fn below(&self, path: &[u64]) -> Option<&Part>
        ensures { MatchOption result (part_at path.now self.now ≡ None) (λ p. part_at path.now self.now ≡ Some p.now) }
    {
        let mut part = self;
        for number in path {
            part = part.kid(*number)?;
        }
        Some(part)
    }

    /// The bytes that the part carries.
    pub(crate) fn content(&self, alloc: Global, bytes: &[u8]) -> Result<Bytes, AllocError>
        ensures { IfOk result (λ b. b ≡ content_of bytes.now self.now) }
    {
        let body = self.body.of(bytes);
        if self.kids.is_empty() {
            self.encoding.decode(alloc, body)
        } else {
            Bytes::from_slice(alloc, body)
        }
    }
}
