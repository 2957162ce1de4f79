//! Messages of one folder that change places: all are held aside, each is given its new number, and only then are they
//! let go.
#![tactic(auto)]

mod arranging;
mod giving;
mod letting_go;
mod moves;
mod taking;

pub use arranging::arrange;
pub use moves::Move;
