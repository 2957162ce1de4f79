//! Commands by their words: who calls them, their names, their plans, and what is proved of what words say.
#![tactic(auto)]

mod caller;
mod name;

pub use caller::{Caller, Clock};
pub use name::CommandName;
