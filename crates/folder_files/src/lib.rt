//! The disk as the commands see it: steps and their answers, events and worlds, the trait of files
//! that make steps.
#![tactic(auto)]

mod event;
mod files;
mod place;
mod refusal;
mod step;
mod world;

pub use event::{After, Event, EventList, History};
pub use files::Files;
pub use place::{FilePath, Place};
pub use refusal::{Refusal, Which};
pub use step::{Answer, Step};
pub use world::{
    Change, ChangeList, Directory, DirectoryList, File, FileList, Held, LockList, Outside,
    OutsideList, RunList, Slot, SlotList, World,
};
