//! Reads a drop of mail in the mbox format: its messages, whole or piece by piece.
#![tactic(auto)]

mod counter;
mod cutter;
mod fault;
mod find;
mod hand;
mod leap;
mod long;
mod mail_drop;
mod part;
mod parts;
mod place;

pub use counter::DropCounter;
pub use cutter::DropCutter;
pub use fault::{CutFault, NotADrop};
pub use mail_drop::{MailDrop, Slices};
