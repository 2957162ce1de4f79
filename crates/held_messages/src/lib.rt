//! Messages that are held aside: which ones a folder holds, and how they are put back.
#![tactic(auto)]

mod held;
mod homing;
mod pairs;
mod putting_back;

pub use held::HeldPair;
pub use homing::{link_home, link_up};
pub use pairs::held_pairs;
pub use putting_back::{HomeList, Settled, highest, highest_after, put_back};
