//! The order in which messages are put: by a date, or by a text, and then by number.
#![tactic(auto)]

mod dates;
mod order;
mod texts;

pub use dates::filled_dates;
pub use order::in_order;
pub use texts::{subject_key, text_key};
