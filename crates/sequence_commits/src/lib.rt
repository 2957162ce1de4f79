//! Commits of a folder's sequences: its text and the context's entries of the private ones.
#![tactic(auto)]

mod changes;
mod committing;
mod cutting;
mod ending;
mod laws;
mod marking;
mod reading;
mod telling;

pub use committing::{commit_cut, commit_sequences};
pub use cutting::cut_sequences;
pub use laws::{cut_is_one, mark_is_one, reading_is_one, told_alike, told_by_numbers};
pub use marking::{mark_all, mark_one};
pub use reading::read_sequences;
