//! Folders that a command has begun: locked, put in order, and their sequences read; how what it marks there is
//! committed, and how it lets them go.
#![tactic(auto)]

mod beginning;
mod ending;
mod existing;
mod making;
mod numbers;
mod opened;
mod reading;

pub use beginning::{begin, open};
pub use ending::end;
pub use making::open_made;
pub use numbers::number_set;
pub use opened::{Opened, commit_marks};
