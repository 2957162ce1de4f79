//! What the words of `scan` and of `inc` say, which write a line of each message: the profile's words first, then their own.
#![tactic(auto)]

mod inc;
mod look;
mod scan;
mod table;

pub use inc::{IncWords, inc_words};
pub use look::{FormatWords, LookWords};
pub use scan::{ScanWords, scan_words};
