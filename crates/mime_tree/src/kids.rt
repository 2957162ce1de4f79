// Where the kids of a part are.
ghost use Rattle.std.specs.Prelude.{◌≡◌, ◌∷◌, [], IfOk};
ghost use Rattle.mime_tree.specs.BoundaryLines.{lines};
ghost use Rattle.mime_tree.specs.ContentTypes.{boundary_of};
ghost use Rattle.mime_tree.specs.DashLines.{IsPlain, Marks};
ghost use Rattle.mime_tree.specs.FoundPieces.{found, IsInside, AreReady};
ghost use Rattle.mime_tree.specs.Kids.{is_plain as stands_plain, cut_by, kids_of};
ghost use Rattle.mime_tree.specs.Spans.{text_at};

use crate::content_type::ContentType;
use crate::pieces::{Piece, Pieces, cut};
use crate::{Encoding, Odd, Span};
use std::alloc::{AllocError, Global};

fn is_plain(encoding: Encoding) -> bool
    ensures { result ≡ stands_plain encoding }
{
    match encoding {
        Encoding::Plain => true,
        _ => false,
    }
}

/// The pieces of a multipart's body.
fn pieces_of<'a>(
    alloc: Global,
    content_type: &ContentType,
    bytes: &[u8],
    body: Span,
    marks: &'a [u64],
) -> Result<Pieces<'a>, AllocError>
    requires inside { IsInside bytes.now body }
    requires marked { Marks IsPlain body.from (lines (text_at bytes.now body)) marks.now }
    ensures found { IfOk result (λ p. found p ≡ cut_by (boundary_of content_type.now.params) bytes.now body) }
    ensures ready { IfOk result (λ p. AreReady bytes.now p.pieces.items) }
{
    match content_type.boundary() {
        Some(boundary) => cut(alloc, bytes, body, marks, boundary),
        None => Ok(Pieces::none(alloc, Odd::NoBoundary)),
    }
}

/// The kids of a part of this type, and what is odd about them.
#[tactic(auto, unfolding(crate::specs::Kids::kids_of))]
pub(crate) fn find_kids<'a>(
    alloc: Global,
    content_type: &ContentType,
    encoding: Encoding,
    bytes: &[u8],
    body: Span,
    marks: &'a [u64],
) -> Result<Pieces<'a>, AllocError>
    requires inside { IsInside bytes.now body }
    requires marked { Marks IsPlain body.from (lines (text_at bytes.now body)) marks.now }
    ensures found { IfOk result (λ p. found p ≡ kids_of content_type.now encoding bytes.now body) }
    ensures ready { IfOk result (λ p. AreReady bytes.now p.pieces.items) }
{
    if content_type.is_multipart() {
        if is_plain(encoding) {
            pieces_of(alloc, content_type, bytes, body, marks)
        } else {
            Ok(Pieces::none(alloc, Odd::NoBoundary))
        }
    } else if content_type.is_message() && is_plain(encoding) {
        Pieces::one(alloc, Piece { span: body, marks })
    } else {
        Ok(Pieces::none(alloc, Odd::None))
    }
}
