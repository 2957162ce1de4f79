//! What the words of `mhbuild` say.
#![tactic(auto)]

mod draft;
mod sort;
mod words;

pub use words::{BuildWords, build_words};
