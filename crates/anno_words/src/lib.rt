//! What the words of `anno` say.
#![tactic(auto)]

mod table;
mod words;
mod wrong_values;

pub use words::{AnnoWords, anno_words};
