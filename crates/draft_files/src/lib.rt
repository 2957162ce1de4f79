//! Drafts as files: their names, how one is read, by its name or as the input, and how a message takes its place.
#![tactic(auto)]

mod hearing;
mod limit;
mod name;
mod reading;
mod replacing;

pub use hearing::hear_all;
pub use limit::within_limit;
pub use name::DraftName;
pub use reading::read_draft;
pub use replacing::replace_draft;
