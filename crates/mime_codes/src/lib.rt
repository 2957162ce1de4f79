//! The codes in which mail carries bytes: quoted-printable and base64 (RFC 2045, sections 6.7 and 6.8).
#![tactic(auto)]

mod b64_decoding;
mod b64_encoding;
mod hex;
mod piece;
mod qp_decoding;
mod qp_encoding;
mod symbols;

pub use b64_decoding::b64_decode;
pub use b64_encoding::b64_encode;
pub use qp_decoding::qp_decode;
pub use qp_encoding::qp_encode;
