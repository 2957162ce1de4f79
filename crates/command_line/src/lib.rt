//! A command by its words: what the profile, the words and the context say of it, and its run.
#![tactic(auto)]

mod annotating;
mod building;
mod command;
mod listing;
mod name;
mod sorting;
mod storing;

pub use command::run_command;
