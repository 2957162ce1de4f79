//! What commands take from the profile and the context: the mail directory, the prefix of negation, and the folder that
//! is acted on.
#![tactic(auto)]

mod current;
mod profile;

pub use current::{enter_context, enter_folder, stored_folder};
pub use profile::{inbox, negation, path};
