//! Plans of what a command does to the outside, and the steps, pieces of output and pieces of input
//! of which code that follows a plan is made.
#![tactic(auto)]

mod answers;
mod asking;
mod speaking;

pub use answers::{DropCut, DropPiece, Entered, FolderMade, Listing, Locking, Reading, Touched};
pub use asking::{
    Stop, ask, ask_create, ask_cut_drop, ask_link, ask_list, ask_lock, ask_make_folder, ask_read,
    ask_read_drop, ask_read_file, ask_rename, ask_sync_file, ask_sync_folder, ask_unlink,
    ask_unlock, attempt, attempt_unlock,
};
pub use speaking::{hear, say};
