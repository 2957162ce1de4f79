// What stands in a message, from its front to its end.

use mh_base::Bytes;
use mh_drafts::Kind;

/// A part without parts: its header lines, whether its body has bytes above 127 as they are, and its body, encoded.
#[derive(Drop)]
pub(crate) struct Piece {
    pub(crate) head: Bytes,
    pub(crate) eight: bool,
    pub(crate) body: Bytes,
}

/// A part without parts, or where a multipart begins or ends.
#[derive(Drop)]
pub(crate) enum Node {
    Leaf(Piece),
    Begin(Kind),
    End,
}
