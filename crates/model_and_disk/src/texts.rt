// Texts and their lengths, and limits of reading near these.
use crate::dice::Dice;
use mh_base::Bytes;
use std::alloc::Global;
use std::test::Fail;

const SHORT: &[u64] = &[0, 1, 2, 7, 40, 41, 100];

/// Files are read into room of 65,537 bytes.
const LONG: &[u64] = &[
    4_095, 4_096, 8_193, 65_535, 65_536, 65_537, 65_538, 70_000, 131_075,
];

const LETTERS: &[u8] = b"abcde\n";

fn length(dice: &mut Dice) -> Result<u64, Fail> {
    if dice.one_in(60) {
        dice.one_of(LONG)
    } else {
        dice.one_of(SHORT)
    }
}

/// A text of one of the lengths: one letter again and again, between two others.
pub fn text(alloc: Global, dice: &mut Dice) -> Result<Bytes, Fail> {
    let length = length(dice)?;
    let mut bytes = Vec::new(alloc);
    bytes.resize(length as usize, dice.one_of(LETTERS)?)?;
    if let Some(first) = bytes.first_mut() {
        *first = dice.one_of(LETTERS)?;
    }
    if let Some(last) = bytes.last_mut() {
        *last = dice.one_of(LETTERS)?;
    }
    Ok(Bytes::from_vec(bytes))
}

/// This length, or one more or less.
pub fn near(dice: &mut Dice, length: u64) -> u64 {
    match dice.below(3) {
        0 => length.saturating_sub(1),
        1 => length.saturating_add(1),
        _ => length,
    }
}

/// One of the lengths, or one more or less.
pub fn near_length(dice: &mut Dice) -> Result<u64, Fail> {
    let length = if dice.one_in(4) {
        dice.one_of(LONG)?
    } else {
        dice.one_of(SHORT)?
    };
    Ok(near(dice, length))
}

/// How many bytes at most: often all.
pub fn limit(dice: &mut Dice) -> Result<u64, Fail> {
    if dice.one_in(3) {
        Ok(u64::MAX)
    } else {
        near_length(dice)
    }
}
