//! Careful changes of a mailbox, step by step, and their laws: no message is lost, whatever careful
//! runs do and wherever the machine stops.
#![tactic(auto)]

mod change;
mod clearing;
mod command_fault;
mod context;
mod fault;
mod file;
mod hand;
mod keeping;
mod laws;
mod locking;
mod meddling;
mod removing;
mod replacing;
mod writing;

pub use change::{ChangeEntry, ChangeEntryList};
pub use clearing::{clear, clear_temps, unlink};
pub use command_fault::CommandFault;
pub use context::{commit_context, read_context};
pub use fault::PlanFault;
pub use file::{replace_file, write_file};
pub use hand::Hand;
pub use laws::{cut_drops_are_stored, durable_by_own_steps, lock_order, never_taken, no_loss};
pub use locking::{let_go, lock};
pub use meddling::{hold_to, meddled, place_gone};
pub use removing::remove;
pub use replacing::sync;
