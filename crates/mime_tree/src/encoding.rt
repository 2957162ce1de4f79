// Transfer encodings.
ghost use Rattle.std.specs.Prelude.{◌≡◌, IfOk};
ghost use Rattle.mime_codes.specs.QuotedPrintable.{qp_decoded};
ghost use Rattle.mime_codes.specs.Base64.{b64_decoded};
ghost use Rattle.mime_tree.specs.Encodings.{encoding_named, encoding_of, decoded};

use crate::names::same_name;
use mail_headers::{Message, unfold};
use mh_base::Bytes;
use mime_codes::{b64_decode, qp_decode};
use std::alloc::{AllocError, Global};

/// How a body is carried; every name but two stands for plain.
#[derive(Clone, Copy, Debug, PartialEq, Eq)]
pub enum Encoding {
    Plain,
    QuotedPrintable,
    Base64,
}

fn from_quoted_printable(alloc: Global, body: &[u8]) -> Result<Bytes, AllocError>
    ensures { IfOk result (λ b. b ≡ qp_decoded body.now) }
{
    let mut bytes = vec![in alloc; 0u8; body.len()]?;
    let count = qp_decode(bytes.as_mut_slice(), body);
    bytes.truncate(count);
    Ok(Bytes::from_vec(bytes))
}

fn from_base64(alloc: Global, body: &[u8]) -> Result<Bytes, AllocError>
    ensures { IfOk result (λ b. b ≡ b64_decoded body.now) }
{
    let mut bytes = vec![in alloc; 0u8; body.len()]?;
    let count = b64_decode(bytes.as_mut_slice(), body);
    bytes.truncate(count);
    Ok(Bytes::from_vec(bytes))
}

impl Encoding {
    #[tactic(auto, unfolding(crate::specs::Encodings::encoding_named))]
    fn named(name: &[u8]) -> Encoding
        ensures { result ≡ encoding_named name.now }
    {
        if same_name(name, b"quoted-printable") {
            Encoding::QuotedPrintable
        } else if same_name(name, b"base64") {
            Encoding::Base64
        } else {
            Encoding::Plain
        }
    }

    /// The encoding that a message's first Content-Transfer-Encoding field names.
    pub(crate) fn of_message(alloc: Global, message: &Message<'_>) -> Result<Encoding, AllocError>
        ensures { IfOk result (λ e. e ≡ encoding_of message.now) }
    {
        match message.first(b"Content-Transfer-Encoding") {
            Some(value) => Ok(Encoding::named(unfold(alloc, value)?.as_slice())),
            None => Ok(Encoding::Plain),
        }
    }

    /// The bytes that a body carries.
    pub(crate) fn decode(self, alloc: Global, body: &[u8]) -> Result<Bytes, AllocError>
        ensures { IfOk result (λ b. b ≡ decoded self body.now) }
    {
        match self {
            Encoding::Plain => Bytes::from_slice(alloc, body),
            Encoding::QuotedPrintable => from_quoted_printable(alloc, body),
            Encoding::Base64 => from_base64(alloc, body),
        }
    }
}
