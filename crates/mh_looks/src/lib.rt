//! The commands that look at messages.
#![tactic(auto)]

mod job;
mod lines;
mod looking;
mod sequences;
mod unseen;

pub use job::ScanJob;
pub use looking::scan;
