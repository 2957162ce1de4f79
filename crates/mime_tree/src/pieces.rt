// The pieces between boundary lines.
ghost use Rattle.std.specs.Prelude.{◌≡◌, ◌<◌, ◌≤◌, ◌+◌, ◌^◌, ◌∷◌, ◌++◌, [], length, IfOk};
ghost use Rattle.mime_tree.specs.BoundaryLines.{lines};
ghost use Rattle.mime_tree.specs.DashLines.{IsPlain, Marks};
ghost use Rattle.mime_tree.specs.FoundPieces.{found, IsInside, AreReady};
ghost use Rattle.mime_tree.specs.Pieces.{pieces as pieces_of, section, section_pieces};
ghost use Rattle.mime_tree.specs.Spans.{text_at};

use crate::mark::{Mark, line_len};
use crate::{Odd, Span};
use mail_headers::without_line_end;
use std::alloc::{AllocError, Global};

/// A piece of a body, and the places in it and behind it of the lines that begin with two hyphens.
#[derive(Clone, Copy, Debug)]
pub(crate) struct Piece<'a> {
    pub(crate) span: Span,
    pub(crate) marks: &'a [u64],
}

/// Pieces in their order, and what is odd about them.
#[derive(Debug, Drop)]
pub(crate) struct Pieces<'a> {
    pub(crate) pieces: Vec<Piece<'a>>,
    pub(crate) odd: Odd,
}

impl<'a> Pieces<'a> {
    pub(crate) fn none(alloc: Global, odd: Odd) -> Pieces<'a>
        ensures none { result.pieces.items ≡ [] }
        ensures odd { result.odd ≡ odd }
    {
        Pieces {
            pieces: Vec::new(alloc),
            odd,
        }
    }

    pub(crate) fn one(alloc: Global, piece: Piece<'a>) -> Result<Pieces<'a>, AllocError>
        ensures one { IfOk result (λ p. p.pieces.items ≡ piece.entry ∷ []) }
        ensures odd { IfOk result (λ p. p.odd ≡ Odd.None) }
    {
        with_last(Vec::new(alloc), piece, Odd::None)
    }
}

fn with_last<'a>(
    pieces: Vec<Piece<'a>>,
    piece: Piece<'a>,
    odd: Odd,
) -> Result<Pieces<'a>, AllocError>
    ensures all { IfOk result (λ p. p.pieces.items ≡ pieces.entry.items ++ piece.entry ∷ []) }
    ensures odd { IfOk result (λ p. p.odd ≡ odd) }
{
    let mut all = pieces;
    all.push(piece)?;
    Ok(Pieces { pieces: all, odd })
}

/// The piece that this text is.
fn piece_of<'a>(from: u64, text: &[u8], marks: &'a [u64]) -> Piece<'a>
    requires { from + length text.now < 2 ^ 64 }
    ensures span { result.span ≡ record { from = from; to = from + length text.now } }
    ensures marks { result.marks.now ≡ marks.now }
{
    Piece {
        span: Span {
            from,
            to: from + text.len() as u64,
        },
        marks,
    }
}

/// The pieces of a body with what stands before the first boundary line, which ends it. Of all lines only those that
/// begin with two hyphens are looked at.
fn cut_sections<'a>(
    alloc: Global,
    bytes: &[u8],
    body: Span,
    marks: &'a [u64],
    boundary: &[u8],
) -> Result<Pieces<'a>, AllocError>
    requires inside { IsInside bytes.now body }
    requires marked { Marks IsPlain body.from (lines (text_at bytes.now body)) marks.now }
    ensures found { IfOk result
        (λ p. found p ≡ section_pieces body.from (section boundary.now body.from (lines (text_at bytes.now body)))) }
    ensures ready { IfOk result (λ p. AreReady bytes.now p.pieces.items) }
{
    let mut pieces = Vec::new(alloc);
    let mut from = body.from;
    let mut begun = body.of(bytes);
    let mut own = marks;
    for (i, place) in marks.iter().enumerate() {
        let len = (*place - from) as usize;
        if begun.len() <= len {
            return with_last(pieces, piece_of(from, begun, own), Odd::Unclosed);
        }
        let (text, tail) = begun.split_at(len);
        let (line, behind) = tail.split_at(line_len(tail));
        match Mark::of(line, boundary) {
            Mark::Other => {}
            Mark::Boundary => {
                pieces.push(piece_of(from, without_line_end(text), own))?;
                from = *place + line.len() as u64;
                begun = behind;
                (_, own) = marks.split_at(i + 1);
            }
            Mark::Closing => {
                return with_last(
                    pieces,
                    piece_of(from, without_line_end(text), own),
                    Odd::None,
                );
            }
        }
    }
    with_last(pieces, piece_of(from, begun, own), Odd::Unclosed)
}

/// The pieces of a body.
pub(crate) fn cut<'a>(
    alloc: Global,
    bytes: &[u8],
    body: Span,
    marks: &'a [u64],
    boundary: &[u8],
) -> Result<Pieces<'a>, AllocError>
    requires inside { IsInside bytes.now body }
    requires marked { Marks IsPlain body.from (lines (text_at bytes.now body)) marks.now }
    ensures found { IfOk result (λ p. found p ≡ pieces_of boundary.now body.from (lines (text_at bytes.now body))) }
    ensures ready { IfOk result (λ p. AreReady bytes.now p.pieces.items) }
{
    let mut cut = cut_sections(alloc, bytes, body, marks, boundary)?;
    let _ = cut.pieces.remove(0);
    Ok(cut)
}
