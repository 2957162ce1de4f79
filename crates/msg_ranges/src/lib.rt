//! Messages named by words: what each word means, and which of a folder's messages words select.
#![tactic(auto)]

mod choosing;
mod counting;
mod counts;
mod fault;
mod forms;
mod halves;
mod members;
mod names;
mod naming;
mod ranges;
mod selecting;
mod sets;
mod spec;
mod walk;

pub use fault::SelectFault;
pub use selecting::select;
pub use spec::{Base, Spec, Spot, Way};
