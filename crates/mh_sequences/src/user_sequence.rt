// What stands under a sequence's name.
use crate::NumSet;

/// A user's sequence, which stands under its name: its numbers, of which there is one at least, and whether it is
/// public.
#[derive(Drop)]
pub struct UserSequence {
    pub numbers: NumSet,
    pub public: bool,
}
