// Numbers by which trees are made.

/// A row of numbers that looks like chance, and is the same each time.
#[derive(Drop)]
pub struct Chance {
    state: u32,
}

impl Chance {
    pub fn of(state: u32) -> Chance {
        Chance { state }
    }

    pub fn next(&mut self) -> u32 {
        self.state = self
            .state
            .wrapping_mul(1_664_525)
            .wrapping_add(1_013_904_223);
        self.state / 65_536
    }
}
