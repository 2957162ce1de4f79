//! What is said of the words of any command: its profile's words first, then its own; their switches, the folder and the
//! messages that they name, and the first word that is wrong.
#![tactic(auto)]

mod bad_value;
mod ended;
mod field_name;
mod folders;
mod message_words;
mod naming;
mod seq_names;
mod switches;
mod tables;
mod words;
mod wrong_word;

pub use bad_value::wrong_earliest;
pub use ended::Ended;
pub use field_name::is_field_name;
pub use folders::{folder_beside, folder_said, folder_word, read_folder};
pub use message_words::{messages, messages_or};
pub use naming::{first_message, message_place};
pub use seq_names::{known_sequences, profile_sequences, sequence_names};
pub use switches::{is_given, last_choice, last_word, values};
pub use tables::{component_table, switch_table};
pub use words::all_words;
pub use wrong_word::{read_items, wrong_at};
