//! `folder`: tells of a folder, makes it the current one, and one of its messages the current message.
#![tactic(auto)]

mod changing;
mod job;
mod looking;
mod summary;

pub use changing::folder;
pub use job::FolderJob;
pub use looking::say_summary;
