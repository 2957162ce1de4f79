// Why a drop was not read.
use thiserror::Error;

/// The bytes are not empty and do not begin with a separator.
#[derive(Clone, Copy, Debug, PartialEq, Eq, Error)]
#[error("not a drop of mail")]
pub struct NotADrop;

/// Why a drop was not cut.
#[derive(Clone, Copy, Debug, PartialEq, Eq, Error)]
pub enum CutFault {
    #[error("not a drop of mail")]
    NotADrop,
    /// A message has this many bytes, or the message in hand has so far, with a beginning of the next separator.
    #[error("a message is too long: {0} bytes")]
    TooLong(u64),
    #[error("out of memory")]
    Memory,
}
