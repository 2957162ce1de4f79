// The front of a drop.

use mh_base::Bytes;

/// The length of a drop in bytes, and its first piece.
#[derive(Drop)]
pub struct Head {
    pub length: u64,
    pub bytes: Bytes,
}
