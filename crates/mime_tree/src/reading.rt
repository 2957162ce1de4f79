// The part at a span of a message, with all below it.
ghost use Rattle.std.specs.Prelude.{◌≡◌, IfOk};
ghost use Rattle.mime_tree.specs.BoundaryLines.{lines};
ghost use Rattle.mime_tree.specs.DashLines.{IsPlain, Marks};
ghost use Rattle.mime_tree.specs.Opening.{Opens, IsPartOf};
ghost use Rattle.mime_tree.specs.Spans.{text_at};
ghost use Rattle.mime_tree.specs.Trees.{IsPart, odd_at as odd_of_level};
ghost use Rattle.mime_tree.specs.FoundPieces.{found, IsInside, IsReady, AreReady};

use crate::content_type::ContentType;
use crate::dashes::marks_behind;
use crate::fallback::Fallback;
use crate::kids::find_kids;
use crate::pieces::{Piece, Pieces};
use crate::{Encoding, Odd, Part, PartList, PartPath, Span};
use mail_headers::Message;
use std::alloc::{AllocError, Global};

/// What a message says of itself, and where its kids are.
#[derive(Drop)]
pub(crate) struct Opened<'a> {
    content_type: ContentType,
    encoding: Encoding,
    body: Span,
    kids: Pieces<'a>,
}

/// Reads the message that this piece is.
fn open<'a>(
    alloc: Global,
    bytes: &[u8],
    piece: Piece<'a>,
    fallback: Fallback,
) -> Result<Opened<'a>, AllocError>
    requires { IsReady bytes.now piece }
    ensures opens { IfOk result (λ o. Opens bytes.now fallback piece.entry.span o) }
    ensures ready { IfOk result (λ o. AreReady bytes.now o.kids.pieces.items) }
{
    let span = piece.span;
    let message = Message::cut(span.of(bytes));
    let content_type = ContentType::of_message(alloc, &message, fallback)?;
    let encoding = Encoding::of_message(alloc, &message)?;
    let body = Span {
        from: span.to - message.body().len() as u64,
        to: span.to,
    };
    let marks = marks_behind(piece.marks, body.from);
    let kids = find_kids(alloc, &content_type, encoding, bytes, body, marks)?;
    Ok(Opened {
        content_type,
        encoding,
        body,
        kids,
    })
}

/// What is odd about a part with so many levels below it.
fn odd_at(levels: u64, kids: &Pieces<'_>) -> Odd
    ensures { result ≡ odd_of_level levels (found kids.now) }
{
    if levels == 0 && !kids.pieces.is_empty() {
        Odd::TooDeep
    } else {
        kids.odd
    }
}

fn part_of(opened: Opened<'_>, span: Span, path: PartPath, odd: Odd, kids: PartList) -> Part
    ensures { IsPartOf opened.entry span path odd kids.items result }
{
    let Opened {
        content_type,
        encoding,
        body,
        kids: _,
    } = opened;
    let ContentType {
        kind,
        subtype,
        params,
    } = content_type;
    Part {
        path,
        kind,
        subtype,
        params,
        encoding,
        head: Span {
            from: span.from,
            to: body.from,
        },
        body,
        odd,
        kids,
    }
}

/// The part that this piece is, with the parts at most so many levels below it.
pub(crate) fn read_part(
    alloc: Global,
    bytes: &[u8],
    piece: Piece<'_>,
    fallback: Fallback,
    path: PartPath,
    levels: u64,
) -> Result<Part, AllocError>
    requires { IsReady bytes.now piece }
    ensures { IfOk result (λ part. IsPart levels bytes.now fallback path piece.entry.span part) }
{
    let opened = open(alloc, bytes, piece, fallback)?;
    let odd = odd_at(levels, &opened.kids);
    let mut kids = Vec::new(alloc);
    if levels == 0 {
        return Ok(part_of(opened, piece.span, path, odd, kids));
    }
    let within = opened.content_type.fallback();
    for (i, kid) in opened.kids.pieces.iter().enumerate() {
        let kid_path = path.kid(alloc, i as u64 + 1)?;
        kids.push(read_part(alloc, bytes, *kid, within, kid_path, levels - 1)?)?;
    }
    Ok(part_of(opened, piece.span, path, odd, kids))
}
