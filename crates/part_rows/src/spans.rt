// The texts that a part's spans stand for.
ghost use Rattle.std.specs.Prelude.{◌≡◌};
ghost use Rattle.mime_tree.specs.Spans.{text_at};
ghost use Rattle.part_rows.specs.PartViews.{span_of};

use mime_tree::{Part, Span};

/// The bytes of a span; of those that aren't there, none.
pub(crate) fn text_of(bytes: &[u8], span: Span) -> &[u8]
    ensures { result.now ≡ text_at bytes.now span }
{
    let to = bytes.len().min(span.to as usize);
    let (front, _) = bytes.split_at(to);
    let (_, text) = front.split_at(to.min(span.from as usize));
    text
}

/// The message that a part is.
pub(crate) fn message_of<'a>(bytes: &'a [u8], part: &Part) -> &'a [u8]
    ensures { result.now ≡ text_at bytes.now (span_of part.now) }
{
    let span = Span {
        from: part.head.from,
        to: part.body.to,
    };
    text_of(bytes, span)
}
