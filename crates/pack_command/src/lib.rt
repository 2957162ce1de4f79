//! `folder -pack`: the messages of a folder are numbered anew, from 1 on.
#![tactic(auto)]

mod laws;
mod moving;
mod packing;
mod places;
mod standing;
mod telling;

pub use laws::numbered_from_one;
pub use pack_plans::PackJob;
pub use packing::pack;
