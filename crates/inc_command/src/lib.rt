//! `inc`: new mail is taken in, in two passes over a drop.
#![tactic(auto)]

mod counting;
mod cut;
mod cutting;
mod drop;
mod head;
mod heading;
mod incorporating;
mod intake;
mod marks;
mod piece;
mod room;
mod taking;

pub use counting::count_drop;
pub use cut::cut_drop;
pub use drop::take_drop;
pub use heading::tell_heading;
pub use inc_plans::{DropSize, Head, IncJob, Taken, Target};
pub use incorporating::inc;
pub use room::ask_room;
