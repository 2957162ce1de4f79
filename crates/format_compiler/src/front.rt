// Where calls begin.

use crate::{Call, Function};

/// A call with all that belongs to it; or a function around another, and where that other begins.
#[derive(Drop)]
pub(crate) enum Front<'a> {
    Whole(Call),
    Around(Function, &'a [char]),
}
