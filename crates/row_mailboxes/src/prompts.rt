// What else happens, by words.
use crate::given::Given;
use crate::places::path;
use crate::steps::step;
use folder_files::After;
use folder_room::{Happening, KeepList, Prompt};
use mh_base::{Bytes, NumberList};
use row_text::{from, number, word};
use std::alloc::Global;
use std::test::Fail;

/// Which bytes stand in a file that was not safe when the machine stopped.
const FILL: u8 = b'?';

fn is_made(when: &[u8]) -> Result<bool, Fail> {
    match when {
        b"before" => Ok(false),
        b"made" => Ok(true),
        _ => Err("before or made".into()),
    }
}

fn torn(alloc: Global, words: &[Bytes]) -> Result<After, Fail> {
    Ok(After::Torn(Bytes::from_slice(alloc, word(words, 1)?)?))
}

fn after(alloc: Global, words: &[Bytes]) -> Result<After, Fail> {
    let when = word(words, 0)?;
    if when == b"torn".as_slice() {
        return torn(alloc, words);
    }
    Ok(if is_made(when)? {
        After::Made
    } else {
        After::Before
    })
}

/// Numbers with commas between.
fn numbers(alloc: Global, word: &[u8]) -> Result<NumberList, Fail> {
    let mut numbers = NumberList::new(alloc);
    for one in word.split(|byte| *byte == b',') {
        numbers.push(number(one)?)?;
    }
    Ok(numbers)
}

/// The changes that a crash keeps in each directory: `all`, `none`, or their places from 0 with commas between.
fn kept(alloc: Global, given: &Given, changes: &[u8]) -> Result<KeepList, Fail> {
    match changes {
        b"all" => Ok(KeepList::new(alloc)),
        b"none" => given.keep(&NumberList::new(alloc)),
        _ => given.keep(&numbers(alloc, changes)?),
    }
}

fn crash(alloc: Global, given: &Given, words: &[Bytes]) -> Result<Happening, Fail> {
    let made = is_made(word(words, 1)?)?;
    let keep = kept(alloc, given, word(words, 0)?)?;
    let fill = FILL;
    Ok(Happening::Crash { keep, fill, made })
}

fn deliver(alloc: Global, words: &[Bytes]) -> Result<Happening, Fail> {
    let path = path(alloc, word(words, 0)?)?;
    let piece = Bytes::from_slice(alloc, word(words, 1)?)?;
    Ok(Happening::Deliver { path, piece })
}

fn other(alloc: Global, given: &Given, words: &[Bytes]) -> Result<Happening, Fail> {
    let run = u128::from(number(word(words, 0)?)?);
    let step = step(alloc, given.mail(), from(words, 1))?;
    Ok(Happening::Other { run, step })
}

fn fail(alloc: Global, words: &[Bytes]) -> Result<Happening, Fail> {
    let after = after(alloc, words)?;
    Ok(Happening::Fail { after })
}

fn happening(alloc: Global, given: &Given, words: &[Bytes]) -> Result<Happening, Fail> {
    let rest = from(words, 1);
    match word(words, 0)? {
        b"fail" => fail(alloc, rest),
        b"crash" => crash(alloc, given, rest),
        b"deliver" => deliver(alloc, rest),
        b"run" => other(alloc, given, rest),
        _ => Err("fail, crash, deliver or run".into()),
    }
}

/// Just before the step of this number, counted from 1: `fail before`, `fail made` or `fail torn "bytes"`; `crash` with
/// what it keeps, and `before` or `made`; `deliver` with a path and bytes; `run` with another run's number and its
/// step.
pub fn prompt(alloc: Global, given: &Given, at: u64, words: &[Bytes]) -> Result<Prompt, Fail> {
    let what = happening(alloc, given, words)?;
    Ok(Prompt { at, what })
}
