// Keys that stand for names.
ghost use Rattle.std.specs.Prelude.{◌≡◌, IfOk};
ghost use Rattle.mh_profile.specs.Names.{key_of};

use std::alloc::{AllocError, Global};

/// The key of a name: two names have one key exactly where they are the same.
#[tactic(auto, unfolding(crate::specs::Names::key_of))]
pub(crate) fn name_key(alloc: Global, name: &[u8]) -> Result<Vec<u8>, AllocError>
    ensures { IfOk result (λ key. key.items ≡ key_of name.now) }
{
    if name.starts_with(b"atr-") {
        name.to_vec(alloc)
    } else {
        name.to_ascii_uppercase(alloc)
    }
}
