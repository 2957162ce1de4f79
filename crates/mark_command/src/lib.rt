//! `mark`: adds messages to sequences, takes them out, and lists sequences.
#![tactic(auto)]

mod changing;
mod job;
mod lines;
mod looking;
mod marks;
mod saying;

pub use changing::mark;
pub use job::{MarkAct, MarkJob};
