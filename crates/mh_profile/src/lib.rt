//! The entries of the profile and of the context: fields of a mail header, each with its value on
//! one line, read, looked up, changed and printed.
#![tactic(auto)]

mod entries;
mod key;
mod lines;
mod name_keys;
mod named_value;
mod printing;
mod valid;

pub use entries::Entries;
pub use named_value::{EntryList, NamedValue};
pub use valid::{is_field_name, is_unfolded};
