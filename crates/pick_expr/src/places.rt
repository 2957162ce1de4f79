// Small sets of numbers.
ghost use Rattle.std.specs.Prelude.{◌≡◌, ℕ, ◌+◌, ◌<◌, ◌==◌, ◌&&◌, ◌||◌, IsTrue, false};
ghost use Rattle.pick_expr.specs.Places.{has_place};

/// A set of numbers below 128.
#[derive(Clone, Copy)]
pub(crate) struct Places {
    bits: u128,
}

impl Places {
    pub const fn none() -> Places
        ensures { (i : ℕ) → has_place result i ≡ false }
    {
        Places { bits: 0 }
    }

    pub const fn has(self, place: usize) -> bool
        requires { place < 128 }
        ensures { result ≡ has_place self place }
    {
        (self.bits >> place) & 1 == 1
    }

    pub const fn with(self, place: usize) -> Places
        requires { place < 128 }
        ensures { (i : ℕ) → has_place result i ≡ (i == place || has_place self i) }
    {
        Places {
            bits: self.bits | (1 << place),
        }
    }

    /// With a number, if it is to be in the set.
    pub const fn with_if(self, place: usize, is_in: bool) -> Places
        requires { place < 128 }
        ensures { (i : ℕ) → has_place result i ≡ ((i == place && is_in) || has_place self i) }
    {
        if is_in { self.with(place) } else { self }
    }

    /// Whether both are the same set.
    pub const fn is(self, other: Places) -> bool
        ensures { IsTrue result → self ≡ other }
    {
        self.bits == other.bits
    }

    /// Its least number, or 128 if it has none.
    pub const fn least(self) -> usize
        ensures { (i : ℕ) → i < result → has_place self i ≡ false }
    {
        self.bits.trailing_zeros() as usize
    }

    /// Each number less one; 0 is left out.
    pub const fn less_one(self) -> Places
        ensures { (i : ℕ) → has_place result i ≡ has_place self (i + 1) }
    {
        Places {
            bits: self.bits >> 1,
        }
    }

    /// The numbers that both have.
    pub const fn and(self, other: Places) -> Places
        ensures { (i : ℕ) → has_place result i ≡ (has_place self i && has_place other i) }
    {
        Places {
            bits: self.bits & other.bits,
        }
    }

    /// The numbers of both.
    pub const fn or(self, other: Places) -> Places
        ensures { (i : ℕ) → has_place result i ≡ (has_place self i || has_place other i) }
    {
        Places {
            bits: self.bits | other.bits,
        }
    }
}
