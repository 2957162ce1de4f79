// The kinds of directory entries, by their names.
ghost use Rattle.std.specs.Prelude.{◌≡◌, ◌≢◌, [], ◌∷◌, ◌++◌, IfOk, OnOk, decimal};
ghost use Rattle.mh_base.specs.Numbers.{hex};
ghost use Rattle.mh_base.specs.Entries.{
  IsRanged,
  IsKind,
  entry_text,
  kind_of,
  backup_in,
  held_in,
  temp_in,
  held_after,
  temp_after,
  hidden_in,
  number_in,
};

use crate::decimal::read_decimal;
use crate::hex::{read_run, run_digits};
use crate::{Bytes, MsgNum, Name};
use itoa::Buffer;
use std::alloc::{AllocError, Global};

/// What a directory entry is, by its name.
#[derive(Clone, Copy, Debug, PartialEq, Eq)]
pub enum Entry {
    /// A message: the decimal of its number.
    Number(MsgNum),
    /// A message that was removed: a comma and the decimal of its number.
    Backup(MsgNum),
    /// A message that a run holds aside: `.mh_held_`, the run, `_` and the number.
    Held(u128, MsgNum),
    /// A file that a run is making: `.mh_temp_`, the run, `_` and a count.
    Temp(u128, u64),
    /// The public sequences: `.mh_sequences`.
    Sequences,
    /// The folder's lock: `.mh_lock`.
    LockFile,
    /// Any other name.
    Other,
}

fn backup_entry(rest: &[u8]) -> Entry
    ensures { result ≡ backup_in rest.now }
{
    match MsgNum::read(rest) {
        Some(number) => Entry::Backup(number),
        None => Entry::Other,
    }
}

fn number_entry(bytes: &[u8]) -> Entry
    ensures { result ≡ number_in bytes.now }
{
    match MsgNum::read(bytes) {
        Some(number) => Entry::Number(number),
        None => Entry::Other,
    }
}

fn held_number(run: u128, tail: &[u8]) -> Entry
    ensures { result ≡ held_after run tail.now }
{
    match tail {
        [b'_', number @ ..] => match MsgNum::read(number) {
            Some(number) => Entry::Held(run, number),
            None => Entry::Other,
        },
        _ => Entry::Other,
    }
}

fn held_entry(rest: &[u8]) -> Entry
    ensures { result ≡ held_in rest.now }
{
    let Some((digits, tail)) = rest.split_at_checked(32) else {
        return Entry::Other;
    };
    match read_run(digits) {
        Some(run) => held_number(run, tail),
        None => Entry::Other,
    }
}

fn temp_count(run: u128, tail: &[u8]) -> Entry
    ensures { result ≡ temp_after run tail.now }
{
    match tail {
        [b'_', count @ ..] => match read_decimal(count) {
            Some(count) => Entry::Temp(run, count),
            None => Entry::Other,
        },
        _ => Entry::Other,
    }
}

fn temp_entry(rest: &[u8]) -> Entry
    ensures { result ≡ temp_in rest.now }
{
    let Some((digits, tail)) = rest.split_at_checked(32) else {
        return Entry::Other;
    };
    match read_run(digits) {
        Some(run) => temp_count(run, tail),
        None => Entry::Other,
    }
}

fn hidden_entry(rest: &[u8]) -> Entry
    ensures { result ≡ hidden_in rest.now }
{
    if rest == b"mh_sequences".as_slice() {
        return Entry::Sequences;
    }
    if rest == b"mh_lock".as_slice() {
        return Entry::LockFile;
    }
    if let Some(tail) = rest.strip_prefix(b"mh_held_") {
        return held_entry(tail);
    }
    if let Some(tail) = rest.strip_prefix(b"mh_temp_") {
        return temp_entry(tail);
    }
    Entry::Other
}

#[tactic(auto, unfolding(crate::specs::Entries::kind_of))]
fn read_kind(bytes: &[u8]) -> Entry
    ensures { result ≡ kind_of bytes.now }
{
    match bytes.split_first() {
        None => Entry::Other,
        Some((b',', rest)) => backup_entry(rest),
        Some((b'.', rest)) => hidden_entry(rest),
        Some(_) => number_entry(bytes),
    }
}

/// The kind of an entry of this name.
pub fn entry_of(bytes: &[u8]) -> Entry
    ensures kind { IsKind bytes.now result }
    ensures value { result ≡ kind_of bytes.now }
{
    read_kind(bytes)
}

fn put_decimal(text: &mut Bytes, value: u64) -> Result<(), AllocError>
    ensures ok { OnOk result (text.new ≡ text.old ++ decimal value) }
{
    let mut buffer = Buffer::new();
    text.extend(buffer.format(value).as_bytes())
}

fn put_run(text: &mut Bytes, run: u128) -> Result<(), AllocError>
    ensures ok { OnOk result (text.new ≡ text.old ++ hex 32 run ++ 95 ∷ []) }
{
    text.extend(&run_digits(run))?;
    text.extend(b"_")
}

#[tactic(auto, unfolding(crate::specs::Entries::entry_text))]
fn text_of(alloc: Global, entry: &Entry) -> Result<Bytes, AllocError>
    ensures text { IfOk result (λ t. t ≡ entry_text entry.now) }
    ensures ranges { OnOk result (IsRanged entry.now) }
{
    let mut text = Bytes::new(alloc);
    match entry {
        Entry::Number(number) => put_decimal(&mut text, u64::from(number.get()))?,
        Entry::Backup(number) => {
            text.extend(b",")?;
            put_decimal(&mut text, u64::from(number.get()))?;
        }
        Entry::Held(run, number) => {
            text.extend(b".mh_held_")?;
            put_run(&mut text, *run)?;
            put_decimal(&mut text, u64::from(number.get()))?;
        }
        Entry::Temp(run, count) => {
            text.extend(b".mh_temp_")?;
            put_run(&mut text, *run)?;
            put_decimal(&mut text, *count)?;
        }
        Entry::Sequences => text.extend(b".mh_sequences")?,
        Entry::LockFile => text.extend(b".mh_lock")?,
        Entry::Other => {}
    }
    Ok(text)
}

/// The name of an entry of this kind.
pub fn entry_name(alloc: Global, entry: &Entry) -> Result<Name, AllocError>
    requires { entry.now ≢ Entry.Other }
    ensures value { IfOk result (λ n. n ≡ entry_text entry.now) }
    ensures kind { IfOk result (λ n. kind_of n ≡ entry.now) }
{
    let text = text_of(alloc, entry)?;
    Ok(Name::new(text).unwrap())
}
