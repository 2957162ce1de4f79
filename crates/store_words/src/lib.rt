//! What the words of `mhstore` say.
#![tactic(auto)]

mod parts;
mod table;
mod values;
mod words;

pub use words::{StoreWords, store_words};
