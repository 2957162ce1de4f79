// The tree of a message's parts.
ghost use Rattle.std.specs.Prelude.{◌≡◌, [], Some, None, MatchOption, IfOk};
ghost use Rattle.mime_tree.specs.Spans.{whole};
ghost use Rattle.mime_tree.specs.Trees.{IsPart, content_of, part_at};

use crate::dashes::dash_places;
use crate::fallback::Fallback;
use crate::pieces::Piece;
use crate::reading::read_part;
use crate::{Part, PartPath, Span};
use mh_base::Bytes;
use std::alloc::{AllocError, Global};

/// How many levels of parts there may be below the root.
const LEVELS: u64 = 64;

/// The parts of a message, with its bytes.
#[derive(Drop)]
pub struct Tree<'a> {
    bytes: &'a [u8],
    root: Part,
}

impl<'a> Tree<'a> {
    /// Cuts a message into its parts. No bytes are refused.
    pub fn cut(alloc: Global, bytes: &'a [u8]) -> Result<Tree<'a>, AllocError>
        ensures bytes { IfOk result (λ t. t.bytes.now ≡ bytes.now) }
        ensures tree { IfOk result (λ t. IsPart 64 bytes.now Fallback.TextPlain [] (whole bytes.now) t.root) }
    {
        let marks = dash_places(alloc, bytes)?;
        let whole = Piece {
            span: Span {
                from: 0,
                to: bytes.len() as u64,
            },
            marks: marks.as_slice(),
        };
        let root = read_part(
            alloc,
            bytes,
            whole,
            Fallback::TextPlain,
            PartPath::root(alloc),
            LEVELS,
        )?;
        Ok(Tree { bytes, root })
    }

    /// The whole message.
    pub fn root(&self) -> &Part
        ensures { result.now ≡ self.now.root }
    {
        &self.root
    }

    /// The part at this path.
    pub fn part(&self, path: &PartPath) -> Option<&Part>
        ensures { MatchOption result (part_at path.now self.now.root ≡ None)
            (λ p. part_at path.now self.now.root ≡ Some p.now) }
    {
        self.root.below(path.numbers().as_slice())
    }

    /// The bytes that a part of this tree carries: a leaf's body decoded, another's as it stands.
    pub fn content(&self, alloc: Global, part: &Part) -> Result<Bytes, AllocError>
        ensures { IfOk result (λ b. b ≡ content_of self.now.bytes.now part.now) }
    {
        part.content(alloc, self.bytes)
    }
}
