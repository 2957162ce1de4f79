//! What is told of the parts of a message: rows that list them, and the names and lines of the files that they are
//! stored in.
#![tactic(auto)]

mod choices;
mod columns;
mod descriptions;
mod files;
mod message;
mod paths;
mod rows;
mod spans;
mod texts;
mod walk;
mod wanted;

pub use files::{file_name, storing_line};
pub use message::MessageParts;
pub use rows::{header_line, shown_path};
