//! What the words of commands on a folder say (`folder`, `mark`, `pick`, `refile`, `rmm`): the profile's words first, then
//! their own.
#![tactic(auto)]

mod bad_name;
mod folder;
mod mark;
mod pick;
mod refile;
mod rmm;
mod table;

pub use folder::{FolderWords, folder_words};
pub use mark::{MarkWords, mark_words};
pub use pick::{PickWords, pick_words};
pub use refile::{RefileWords, refile_words};
pub use rmm::{RmmWords, rmm_words};
