//! The marks of a folder's sequences, public and private, as those of which the law on marks speaks.
#![tactic(auto)]

mod laws;

pub use laws::{private_sequences_mark, public_sequences_mark};
