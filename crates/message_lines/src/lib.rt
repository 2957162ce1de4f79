//! The lines of messages: the format that words name, and the line that it gives for a message.
#![tactic(auto)]

mod finding;
mod format;
mod line;
mod look;
mod standing;

pub use finding::{named_format, read_format};
pub use format::LineFormat;
pub use line::message_line;
pub use look::Look;
pub use standing::{Standing, is_current};
