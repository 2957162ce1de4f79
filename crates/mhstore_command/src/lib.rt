//! `mhstore`: stores parts of messages in files of the current directory.
#![tactic(auto)]

mod filing;
mod linking;
mod storing;

pub use mhstore_plans::StoreJob;
pub use storing::mhstore;
