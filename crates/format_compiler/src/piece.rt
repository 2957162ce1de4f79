// What a format prints.

use crate::{Call, Width};
use mh_base::Text;

/// A part of a format that is printed wherever the format comes to it.
#[derive(Drop)]
pub enum Piece {
    Character(char),
    /// The value of the component of this name.
    Component { width: Option<Width>, name: Text },
    /// The result of a call.
    Call { width: Option<Width>, call: Call },
}
