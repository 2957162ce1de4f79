//! `sortm`: messages of a folder change places, so that they stand in order.
#![tactic(auto)]

mod keys;
mod marks;
mod moving;
mod ordering;
mod reading;
mod sorting;

pub use moving::{move_all, moves};
pub use sorting::sortm;
pub use sortm_plans::{SortJob, SortKey};
