//! Drafts of MIME messages: the lines of a draft are read as a tree of its parts, or the first wrong line is told.
#![tactic(auto)]

mod attributes;
mod blanks;
mod comment;
mod directive;
mod draft;
mod enclosed;
mod fault;
mod forwards;
mod gathering;
mod header;
mod item;
mod kind;
mod label;
mod line;
mod part_line;
mod sign;
mod trail;
mod want;

pub use draft::Draft;
pub use fault::DraftFault;
pub use item::{Item, ItemList, Leaf};
pub use kind::Kind;
pub use label::{Attribute, AttributeList, Label};
pub use want::{Want, WantList};
