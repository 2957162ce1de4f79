//! Messages that get lines in front of their bytes: each is held aside, read, put anew at its number, and let go, so
//! that it has a name at each time.
#![tactic(auto)]

mod noting;
mod storing;

pub use noting::note_messages;
