// Parts without parts.
ghost use Rattle.std.specs.Prelude.{◌≡◌, IfOk};
ghost use Rattle.mhbuild_compose.specs.Pieces.{piece_of, is_eight as is_eight_bit};

use crate::encoding::{Encoding, is_high_text};
use crate::head::put_head;
use crate::node::Piece;
use mh_base::Bytes;
use mh_drafts::Label;
use std::alloc::{AllocError, Global};

fn is_eight(encoding: Encoding) -> bool
    ensures { result ≡ is_eight_bit encoding }
{
    match encoding {
        Encoding::EightBit => true,
        _ => false,
    }
}

/// The part with this label and these bytes.
pub(crate) fn make_piece(alloc: Global, label: &Label, text: &[u8]) -> Result<Piece, AllocError>
    ensures { IfOk result (λ p. p ≡ piece_of label.now text.now) }
{
    let encoding = Encoding::of(label.kind.as_slice(), text);
    let mut head = Bytes::new(alloc);
    put_head(&mut head, label, is_high_text(text), encoding)?;
    Ok(Piece {
        head,
        eight: is_eight(encoding),
        body: encoding.encode(alloc, text)?,
    })
}
