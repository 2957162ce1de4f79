// The labels of parts that no directive describes.
ghost use Rattle.std.specs.Prelude.{◌≡◌, IfOk};
ghost use Rattle.mhbuild_compose.specs.Pieces.{plain_label, text_label as label_of_text, message_label as label_of_message};

use mh_base::{Bytes, List};
use mh_drafts::Label;
use std::alloc::{AllocError, Global};

fn plain(alloc: Global, kind: &[u8], subtype: &[u8]) -> Result<Label, AllocError>
    ensures { IfOk result (λ l. l ≡ plain_label kind.now subtype.now) }
{
    Ok(Label {
        kind: Bytes::from_slice(alloc, kind)?,
        subtype: Bytes::from_slice(alloc, subtype)?,
        attributes: List::new(alloc),
        comment: None,
        id: None,
        description: None,
        disposition: None,
    })
}

pub(crate) fn text_label(alloc: Global) -> Result<Label, AllocError>
    ensures { IfOk result (λ l. l ≡ label_of_text) }
{
    plain(alloc, b"text", b"plain")
}

pub(crate) fn message_label(alloc: Global) -> Result<Label, AllocError>
    ensures { IfOk result (λ l. l ≡ label_of_message) }
{
    plain(alloc, b"message", b"rfc822")
}
