//! What commands have in common: the folder that is listed, the texts that are read, the messages that
//! words choose, and how a plan's fault ends a command.
#![tactic(auto)]

mod ascending;
mod chosen;
mod current;
mod ending;
mod listed;
mod place;
mod text;

pub use ascending::numbers;
pub use chosen::choose;
pub use current::make_current;
pub use ending::fault_in;
pub use listed::{list_folder, listed_numbers, noted};
pub use place::folder_place;
pub use text::{LIMIT, read_sequences_text, read_text};
