//! What `folder -pack` is to do, its plan, and what is proved of it.
#![tactic(auto)]

mod job;

pub use job::PackJob;
