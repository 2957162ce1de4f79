//! A mailbox in memory: files that store their history and run a script of what else happens.
#![tactic(auto)]

mod answers;
mod course;
mod disk;
mod files;
mod images;
mod listing;
mod locks;
mod naming;
mod outside;
mod parents;
mod places;
mod playing;
mod room;
mod script;
mod settled;
mod slots;
mod steps;

pub use room::Room;
pub use script::{Happening, Keep, KeepList, Prompt, PromptList};
