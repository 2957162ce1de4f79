// Sets of bytes in two halves.
ghost use Rattle.std.specs.Prelude.{◌≡◌, ℕ, ◌==◌, ◌||◌, ◌&&◌, nat_le, false};
ghost use Rattle.pick_expr.specs.Atoms.{matches_byte};
ghost use Rattle.pick_expr.specs.Places.{in_halves};

use crate::places::Places;

/// A set of bytes: those below 128, and the others less 128.
#[derive(Clone, Copy)]
pub(crate) struct Halves {
    low: Places,
    high: Places,
}

impl Halves {
    pub fn none() -> Halves
        ensures { (b : ℕ) → in_halves result b ≡ false }
    {
        Halves {
            low: Places::none(),
            high: Places::none(),
        }
    }

    pub fn has(self, byte: u8) -> bool
        ensures { result ≡ in_halves self byte }
    {
        if byte < 128 {
            self.low.has(byte as usize)
        } else {
            self.high.has((byte - 128) as usize)
        }
    }

    pub fn with(self, byte: u8) -> Halves
        ensures { (b : ℕ) → in_halves result b ≡ (b == byte || in_halves self b) }
    {
        if byte < 128 {
            Halves {
                low: self.low.with(byte as usize),
                high: self.high,
            }
        } else {
            Halves {
                low: self.low,
                high: self.high.with((byte - 128) as usize),
            }
        }
    }

    /// With a byte of a pattern, which stands for both cases where it is a lower-case letter.
    pub fn with_folded(self, byte: u8) -> Halves
        ensures { (b : ℕ) → in_halves result b ≡ (matches_byte byte b || in_halves self b) }
    {
        if byte.is_ascii_lowercase() {
            self.with(byte).with(byte.to_ascii_uppercase())
        } else {
            self.with(byte)
        }
    }

    /// With the bytes between two, both included.
    pub fn with_range(self, low: u8, high: u8) -> Halves
        ensures { (b : ℕ) → in_halves result b ≡ ((nat_le low b && nat_le b high) || in_halves self b) }
    {
        let mut all = self;
        for byte in u16::from(low)..u16::from(high) + 1 {
            all = all.with(byte as u8);
        }
        all
    }
}
