//! `mhlist`: lists the parts of messages.
#![tactic(auto)]

mod looking;
mod rows;

pub use looking::{chosen_messages, mhlist};
pub use mhlist_plans::ListJob;
pub use rows::{message_gone, no_part};
