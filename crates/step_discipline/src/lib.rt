//! Whether a step keeps the write discipline after what its run did.
#![tactic(auto)]

mod annotation;
mod committing;
mod copies;
mod cutting;
mod deed;
mod discarding;
mod ends;
mod holding;
mod kinds;
mod named;
mod reading;
mod ready;
mod rules;

pub use rules::may_step;
