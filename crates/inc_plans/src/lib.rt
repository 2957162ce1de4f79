//! What `inc` is to do, its plan, and what is proved of it.
#![tactic(auto)]

mod drop_head;
mod job;
mod size;
mod taken;
mod target;

pub use drop_head::Head;
pub use job::IncJob;
pub use size::DropSize;
pub use taken::Taken;
pub use target::Target;
