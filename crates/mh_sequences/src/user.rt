// One sequence with its name.
use crate::{NumSet, SeqName};

/// A user's sequence: its name, its numbers, of which there is one at least, and whether it is public.
#[derive(Drop)]
pub(crate) struct User {
    pub(crate) name: SeqName,
    pub(crate) numbers: NumSet,
    pub(crate) public: bool,
}
