//! The lines that annotate a message.
#![tactic(auto)]

mod lines;
mod moments;

pub use lines::annotation_lines;
pub use moments::moment_date;
