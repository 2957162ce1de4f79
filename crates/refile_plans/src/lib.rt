//! What `refile` and `rmm` are to do, their plans, and what is proved of these.
#![tactic(auto)]

mod job;

pub use job::{RefileJob, RmmJob};
