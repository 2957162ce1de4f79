//! The parts of MIME messages: a message is cut into the tree of its parts without a copy.
#![tactic(auto)]

mod content_type;
mod dashes;
mod encoding;
mod fallback;
mod gap;
mod kids;
mod mark;
mod names;
mod odd;
mod param;
mod params;
mod part;
mod path;
mod pieces;
mod reading;
mod span;
mod token;
mod tree;

pub use encoding::Encoding;
pub use mark::line_len;
pub use odd::Odd;
pub use param::{Param, ParamList};
pub use part::{Part, PartList};
pub use path::{PartPath, PathFault};
pub use span::Span;
pub use token::{Word, first_token, quoted, unprotected};
pub use tree::Tree;
