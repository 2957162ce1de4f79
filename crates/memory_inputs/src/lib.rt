//! Inputs over memory that fail, for tests.
#![tactic(auto)]

mod mem_source;

pub use mem_source::MemSource;
