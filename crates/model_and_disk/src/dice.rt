// What is drawn by chance: the same from the same seed.
use rand_core::{Rng, SeedableRng};
use rand_xoshiro::Xoshiro256PlusPlus;
use std::test::Fail;

#[derive(Drop)]
pub struct Dice {
    generator: Xoshiro256PlusPlus,
}

impl Dice {
    pub fn new(seed: u64) -> Dice {
        Dice {
            generator: Xoshiro256PlusPlus::seed_from_u64(seed),
        }
    }

    /// A number below this one; 0 where it is 0.
    pub fn below(&mut self, bound: u64) -> u64 {
        self.generator.next_u64() % bound.max(1)
    }

    /// A place in a list of this length.
    pub fn place(&mut self, length: usize) -> usize {
        self.below(length as u64) as usize
    }

    pub fn one_in(&mut self, many: u64) -> bool {
        self.below(many) == 0
    }

    /// One of these.
    pub fn one_of<T: Copy>(&mut self, all: &[T]) -> Result<T, Fail> {
        let place = self.place(all.len());
        match all.get(place) {
            Some(one) => Ok(*one),
            None => Err("nothing to draw from".into()),
        }
    }
}
