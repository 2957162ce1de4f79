// Names of each kind.
use crate::dice::Dice;
use mh_base::{Bytes, Entry, MsgNum, Name, entry_name};
use std::alloc::Global;
use std::test::Fail;

/// Names of no kind; the last is no text.
const OTHERS: &[&[u8]] = &[
    b"draft",
    b"a b",
    b"\xc3\xbc",
    b".x",
    b"#1",
    b"01",
    b"1000000",
    b",01",
    b".mh_held_1_1",
    b"draft.lock",
    b"\xff",
];

fn name(alloc: Global, bytes: &[u8]) -> Result<Name, Fail> {
    match Name::new(Bytes::from_slice(alloc, bytes)?) {
        Some(name) => Ok(name),
        None => Err("a name".into()),
    }
}

/// The numbers of messages, few so that they meet.
const NUMBERS: &[u32] = &[1, 2, 3, 4, 5, 1, 2, 3, 4, 5, 1, 2, 3, 4, 999_999];

fn number(dice: &mut Dice) -> Result<MsgNum, Fail> {
    let number = dice.one_of(NUMBERS)?;
    match MsgNum::new(number) {
        Some(number) => Ok(number),
        None => Err("a number".into()),
    }
}

/// The name of a message.
pub fn number_name(alloc: Global, dice: &mut Dice) -> Result<Name, Fail> {
    Ok(entry_name(alloc, &Entry::Number(number(dice)?))?)
}

pub fn held_name(alloc: Global, dice: &mut Dice, run: u128) -> Result<Name, Fail> {
    Ok(entry_name(alloc, &Entry::Held(run, number(dice)?))?)
}

pub fn temp_name(alloc: Global, dice: &mut Dice, run: u128) -> Result<Name, Fail> {
    let count = dice.below(3);
    Ok(entry_name(alloc, &Entry::Temp(run, count))?)
}

/// The names by which a message is held aside.
#[derive(Drop)]
pub struct TakeNames {
    pub from: Name,
    pub to: Name,
}

/// A message's name, and the one under which this run holds it.
pub fn take_names(alloc: Global, dice: &mut Dice, run: u128) -> Result<TakeNames, Fail> {
    let number = number(dice)?;
    Ok(TakeNames {
        from: entry_name(alloc, &Entry::Number(number))?,
        to: entry_name(alloc, &Entry::Held(run, number))?,
    })
}

fn backup_name(alloc: Global, dice: &mut Dice) -> Result<Name, Fail> {
    Ok(entry_name(alloc, &Entry::Backup(number(dice)?))?)
}

/// The longest name that a directory may have.
fn longest(alloc: Global) -> Result<Name, Fail> {
    name(alloc, &[b'n'; 255])
}

fn other(alloc: Global, dice: &mut Dice) -> Result<Name, Fail> {
    if dice.one_in(12) {
        return longest(alloc);
    }
    name(alloc, dice.one_of(OTHERS)?)
}

/// A name of any kind but the lock's, which is made by locks alone.
pub fn any_name(alloc: Global, dice: &mut Dice, run: u128) -> Result<Name, Fail> {
    match dice.below(16) {
        0..=4 => number_name(alloc, dice),
        5 => backup_name(alloc, dice),
        6..=8 => held_name(alloc, dice, run),
        9..=11 => temp_name(alloc, dice, run),
        12 => Ok(entry_name(alloc, &Entry::Sequences)?),
        13 => name(alloc, b"context"),
        _ => other(alloc, dice),
    }
}
