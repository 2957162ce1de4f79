//! What bytes of mail mean to a reader: shown text, addresses and encoded words.
#![tactic(auto)]

mod address;
mod characters;
mod charset;
mod encoded_word;
mod encoded_words;
mod encoding;
mod marks;
mod parts;
mod shown_bytes;
mod stripping;

pub use address::Shown;
pub use encoded_words::decode_words;
pub use shown_bytes::show_bytes;
pub use stripping::{Spot, is_gap, strip};
