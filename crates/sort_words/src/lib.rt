//! What the words of `sortm` say.
#![tactic(auto)]

mod keys;
mod table;
mod words;

pub use words::{SortWords, sort_words};
