//! Mailboxes in memory, what else happens there, and steps of runs, as the text of rows tells of them (docs/ROWS.md).
#![tactic(auto)]

mod files;
mod given;
mod lines;
mod places;
mod prompts;
mod steps;

pub use given::Given;
pub use places::{path, place};
pub use prompts::prompt;
pub use steps::step;
