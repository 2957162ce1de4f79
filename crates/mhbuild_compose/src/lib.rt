//! MIME messages composed: the message that a draft becomes, with what its parts want.
#![tactic(auto)]

mod boundaries;
mod composing;
mod eights;
mod encoding;
mod given;
mod head;
mod keys;
mod labels;
mod node;
mod nodes;
mod piece;
mod root;
mod stack;
mod writing;

pub use composing::compose;
pub use given::{Given, GivenList};
