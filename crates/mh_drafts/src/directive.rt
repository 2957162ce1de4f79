// What a directive of a draft says.

use crate::{Kind, Leaf, Want};

/// What a line that begins with `#` says.
#[derive(Drop)]
pub(crate) enum Directive {
    Begin(Kind),
    End,
    Part(Leaf, Want),
    Wrong,
}
