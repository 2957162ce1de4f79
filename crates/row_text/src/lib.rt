//! The text of rows: a line's words, what is told of values, and rows one after another.
#![tactic(auto)]

mod lines;
mod playing;
mod quoted;
mod told;

pub use lines::{number, signed, text, word, words};
pub use playing::{Calls, play};
pub use quoted::show_quoted;
pub use told::{from, halves, own, show_line, show_number, show_quoted_line, show_whether, texts};
