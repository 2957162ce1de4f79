//! The commands that write a line of each message by a format: `scan` and `inc`, by their words.
#![tactic(auto)]

mod incorporating;
mod look;
mod scanning;

pub use incorporating::run_inc;
pub use scanning::run_scan;
