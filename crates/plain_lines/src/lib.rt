//! Tests of lines beside lines that are printed from one part of a format's tree to the next. There is nothing here but
//! tests and what they test against.
#![tactic(auto)]

mod part;
mod plain;

pub use part::Part;
pub use plain::plain_line;

#[cfg(test)]
mod beside;
#[cfg(test)]
mod chance;
#[cfg(test)]
mod trees;
#[cfg(test)]
mod writing;
