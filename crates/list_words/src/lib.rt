//! What the words of `mhlist` say.
#![tactic(auto)]

mod parts;
mod table;
mod words;

pub use parts::part;
pub use words::{ListWords, list_words};
