//! Commands that tell of a folder's sequences, and may change them: what they say, and how they end.
#![tactic(auto)]

mod reading;
mod saying;

pub use reading::{listed, sequences_listed};
pub use saying::say_lines;
