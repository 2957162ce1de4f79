//! New messages: how one gets a number of a folder, and is made safe there.
#![tactic(auto)]

mod putting;
mod storing;

pub use putting::put;
pub use storing::store;
