//! `pick`: tells which messages an expression holds of, and brings them into sequences.
#![tactic(auto)]

mod changing;
mod lines;
mod looking;
mod marks;
mod picking;
mod saying;
mod testing;

pub use changing::pick;
pub use pick_plans::{PickAct, PickJob, PickMarks};
