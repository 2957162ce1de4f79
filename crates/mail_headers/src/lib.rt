//! Header fields of mail messages: a message is cut into its fields and its body without a copy.
#![tactic(auto)]

mod field;
mod fields;
mod message;
mod spans;
mod unfolding;

pub use field::Field;
pub use fields::Fields;
pub use message::Message;
pub use spans::{folded_line_len, name_len, without_line_end};
pub use unfolding::unfold;
