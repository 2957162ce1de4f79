// Copies that contracts can rely on.
ghost use Rattle.std.specs.Prelude.{◌≡◌, IfOk};

use std::alloc::{AllocError, Global};

/// A type whose copies are equal to what was copied.
pub trait Duplicate: Drop {
    fn duplicate(&self, alloc: Global) -> Result<Self, AllocError>
        ensures { IfOk result (λ c. c ≡ self.now) };
}

impl Duplicate for u64 {
    fn duplicate(&self, _alloc: Global) -> Result<u64, AllocError> {
        Ok(*self)
    }
}

impl Duplicate for u128 {
    fn duplicate(&self, _alloc: Global) -> Result<u128, AllocError> {
        Ok(*self)
    }
}
