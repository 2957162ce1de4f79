//! What `sortm` is to do, its plan and that by which messages get other numbers, and what is proved of these.
#![tactic(auto)]

mod job;

pub use job::{SortJob, SortKey};
