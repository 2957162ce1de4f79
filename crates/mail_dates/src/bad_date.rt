// Why a date was not read.
use thiserror::Error;

/// The text names no date.
#[derive(Clone, Copy, Debug, PartialEq, Eq, Error)]
#[error("not a date")]
pub struct BadDate;
