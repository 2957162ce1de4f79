//! Lines about messages, by compiled formats.
#![tactic(auto)]

mod addresses;
mod answer;
mod answers;
mod characters;
mod dates;
mod evaluating;
mod indexed;
mod lazy;
mod names;
mod numbers;
mod running;
mod state;
mod texts;
mod values;
mod view;

pub use indexed::IndexedMessage;
pub use running::line;
pub use state::LineState;
pub use view::View;
