//! Sequences of messages: sets of message numbers with names, read from a folder's text and the
//! context's entries, changed and printed.
#![tactic(auto)]

mod change;
mod counts;
mod escape;
mod field_names;
mod gathering;
mod join;
mod lists;
mod mark;
mod mention;
mod moving;
mod num_set;
mod pile;
mod place;
mod printing;
mod reading;
mod run;
mod run_list;
mod runs;
mod seq_name;
mod sequences;
mod slots;
mod stretch;
mod user;
mod user_map;
mod user_sequence;

pub use join::Join;
pub use mark::{Mark, MarkList, Pair, PairList, SeqNameList};
pub use mh_profile::{EntryList, NamedValue};
pub use num_set::NumSet;
pub use pile::Pile;
pub use run::Run;
pub use seq_name::{SeqFault, SeqName};
pub use sequences::Sequences;
pub use user_sequence::UserSequence;
