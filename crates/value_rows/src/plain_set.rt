// Sets beside plain ones, which have a truth value for each number.
use crate::numbers::reserve;
use mh_base::{Bytes, MsgNum};
use mh_sequences::NumSet;
use row_text::{number, show_line, show_number, word};
use std::alloc::Global;
use std::test::Fail;

/// A set, a plain one, and after how many changes they were found to differ.
#[derive(Drop)]
struct Both {
    numbers: NumSet,
    plain: Vec<bool>,
    changes: u64,
    differing: u64,
}

/// Whether the set has just the numbers that the plain one has.
fn agrees(numbers: &NumSet, plain: &[bool]) -> bool {
    plain.iter().enumerate().all(|(n, there)| {
        match MsgNum::new(u32::try_from(n).unwrap_or(0)) {
            Some(n) => numbers.has(n) == *there,
            None => true,
        }
    })
}

/// Inserts a number or removes it.
fn put(numbers: &mut NumSet, n: u32, there: bool) -> Result<(), Fail> {
    let n = MsgNum::new(n).ok_or("a message number")?;
    if there {
        numbers.insert(n)?;
    } else {
        numbers.remove(n)?;
    }
    Ok(())
}

impl Both {
    fn put(&mut self, n: u32, there: bool) -> Result<(), Fail> {
        put(&mut self.numbers, n, there)?;
        if let Some(place) = self.plain.get_mut(n as usize) {
            *place = there;
        }
        self.changes = self.changes.wrapping_add(1);
        if !agrees(&self.numbers, self.plain.as_slice()) {
            self.differing = self.differing.wrapping_add(1);
        }
        Ok(())
    }

    /// Changes by chance.
    fn by_chance(&mut self) -> Result<(), Fail> {
        let mut chance: u32 = 12_345;
        for _ in 0..500 {
            chance = chance.wrapping_mul(1_664_525).wrapping_add(1_013_904_223);
            self.put(1 + chance / 16 % 24, chance % 5 < 3)?;
        }
        Ok(())
    }

    /// Each number comes in front of the last, then half of them go from the front.
    fn to_the_front(&mut self) -> Result<(), Fail> {
        for step in 0..60 {
            self.put(180 - 2 * step, true)?;
        }
        for step in 0..30 {
            self.put(62 + 2 * step, false)?;
        }
        Ok(())
    }

    /// Then numbers come in front and go from the front in turns.
    fn in_front(&mut self) -> Result<(), Fail> {
        self.to_the_front()?;
        for step in 0..30 {
            self.put(120 - 4 * step, true)?;
            self.put(118 - 4 * step, true)?;
            self.put(118 - 4 * step, false)?;
        }
        Ok(())
    }

    /// Each number comes behind the last as the first one goes.
    fn along(&mut self) -> Result<(), Fail> {
        for step in 0..99 {
            self.put(1 + 2 * step, true)?;
            if step >= 8 {
                self.put(2 * step - 15, false)?;
            }
        }
        Ok(())
    }

    fn change(&mut self, how: &[u8]) -> Result<(), Fail> {
        match how {
            b"chance" => self.by_chance(),
            b"front" => self.in_front(),
            b"along" => self.along(),
            _ => Err("changes".into()),
        }
    }

    fn show(&self, alloc: Global, told: &mut Bytes) -> Result<(), Fail> {
        show_number(alloc, told, self.changes)?;
        told.extend(b" changes, ")?;
        show_number(alloc, told, self.differing)?;
        show_line(told, " with another set")
    }
}

/// Which changes, and for how many runs room is made before.
pub(crate) fn call(alloc: Global, words: &[Bytes], told: &mut Bytes) -> Result<(), Fail> {
    let mut numbers = NumSet::new(alloc);
    reserve(&mut numbers, number(word(words, 2)?)?)?;
    let mut both = Both {
        numbers,
        plain: vec![in alloc; false; 200]?,
        changes: 0,
        differing: 0,
    };
    both.change(word(words, 1)?)?;
    both.show(alloc, told)
}
