// Sets of message numbers.
ghost use Rattle.std.specs.Prelude.{◌≤◌, IfOk};

use mh_base::{Bytes, MsgNum};
use mh_sequences::{Join, NumSet, Pile, Run};
use row_text::{from, halves, number, show_line, show_number, show_whether, text, word};
use std::alloc::Global;
use std::test::Fail;

pub(crate) fn message(word: &[u8]) -> Result<MsgNum, Fail> {
    Ok(MsgNum::read(word).ok_or("a message number")?)
}

fn run(from: &str, to: &str) -> Result<Run, Fail>
    ensures { IfOk result (λ r. r.from ≤ r.to) }
{
    let from = message(from.as_bytes())?;
    let to = message(to.as_bytes())?;
    if from.get() > to.get() {
        return Err("a run".into());
    }
    Ok(Run { from, to })
}

/// `3` inserts, `-3` removes, and `3-5` inserts a run.
fn change(set: &mut NumSet, word: &[u8]) -> Result<(), Fail> {
    match text(word)?.split_once('-') {
        None => Ok(set.insert(message(word)?)?),
        Some(("", n)) => Ok(set.remove(message(n.as_bytes())?)?),
        Some((from, to)) => Ok(set.insert_run(run(from, to)?)?),
    }
}

pub(crate) fn set_of(alloc: Global, words: &[Bytes]) -> Result<NumSet, Fail> {
    let mut set = NumSet::new(alloc);
    for word in words {
        change(&mut set, word.as_slice())?;
    }
    Ok(set)
}

/// How many numbers there are, and those at all places.
pub(crate) fn show_all(alloc: Global, set: &NumSet, told: &mut Bytes) -> Result<(), Fail> {
    show_number(alloc, told, set.len())?;
    told.extend(b":")?;
    for place in 0..u64::MAX {
        match set.at(place) {
            Some(n) => told.extend(format!(in alloc; " {}", n.get())?.as_bytes())?,
            None => break,
        }
    }
    show_line(told, "")
}

/// How many runs there are, and those at all places.
fn show_runs(alloc: Global, set: &NumSet, told: &mut Bytes) -> Result<(), Fail> {
    show_number(alloc, told, set.runs())?;
    told.extend(b":")?;
    for place in 0..u64::MAX {
        match set.run_at(place) {
            Some(run) => {
                let run = format!(in alloc; " {}-{}", run.from.get(), run.to.get())?;
                told.extend(run.as_bytes())?;
            }
            None => break,
        }
    }
    show_line(told, "")
}

fn show_at(alloc: Global, set: &NumSet, place: u64, told: &mut Bytes) -> Result<(), Fail> {
    match set.at(place) {
        Some(n) => show_number(alloc, told, u64::from(n.get()))?,
        None => told.extend(b"none")?,
    }
    show_line(told, "")
}

fn show_has(set: &NumSet, n: &[u8], told: &mut Bytes) -> Result<(), Fail> {
    show_whether(told, set.has(message(n)?))
}

fn show_place(alloc: Global, set: &NumSet, n: &[u8], told: &mut Bytes) -> Result<(), Fail> {
    show_number(alloc, told, set.place(message(n)?.get()))?;
    show_line(told, "")
}

fn show_before(alloc: Global, set: &NumSet, place: u64, told: &mut Bytes) -> Result<(), Fail> {
    show_number(alloc, told, set.numbers_before(place))?;
    show_line(told, "")
}

pub(crate) fn reserve(set: &mut NumSet, more: u64) -> Result<(), Fail> {
    if more > 1_000_000 {
        return Err("a smaller number".into());
    }
    Ok(set.reserve(more)?)
}

/// What is asked with a number: `at:3` is the number at a place, `has:3` whether a number is there, `place:3` how many
/// runs end before a number, `before:3` how many numbers the runs before a place have. `reserve:3` makes room for runs.
fn ask(alloc: Global, set: &mut NumSet, what: &str, n: &str, told: &mut Bytes) -> Result<(), Fail> {
    let n = n.as_bytes();
    match what {
        "at" => show_at(alloc, set, number(n)?, told),
        "has" => show_has(set, n, told),
        "place" => show_place(alloc, set, n, told),
        "before" => show_before(alloc, set, number(n)?, told),
        "reserve" => reserve(set, number(n)?),
        _ => Err("a question".into()),
    }
}

fn show_len(alloc: Global, set: &NumSet, told: &mut Bytes) -> Result<(), Fail> {
    show_number(alloc, told, set.len())?;
    show_line(told, "")
}

/// A change of the set, or a question: also `len`, `all` numbers, or the `runs`.
fn step(alloc: Global, set: &mut NumSet, word: &[u8], told: &mut Bytes) -> Result<(), Fail> {
    match word {
        b"len" => show_len(alloc, set, told),
        b"all" => show_all(alloc, set, told),
        b"runs" => show_runs(alloc, set, told),
        _ => match text(word)?.split_once(':') {
            Some((what, n)) => ask(alloc, set, what, n, told),
            None => change(set, word),
        },
    }
}

fn steps(alloc: Global, words: &[Bytes], told: &mut Bytes) -> Result<(), Fail> {
    let mut set = NumSet::new(alloc);
    for word in words {
        step(alloc, &mut set, word.as_slice(), told)?;
    }
    Ok(())
}

/// The set of some numbers in any order, and those of another set.
fn pile(alloc: Global, words: &[Bytes], told: &mut Bytes) -> Result<(), Fail> {
    let (numbers, others) = halves(words);
    let mut pile = Pile::new(alloc);
    for word in numbers {
        let from = message(word.as_slice())?;
        pile.add_run(Run { from, to: from })?;
    }
    pile.add_set(&set_of(alloc, others)?)?;
    show_runs(alloc, &pile.into_set()?, told)
}

fn join(alloc: Global, how: Join, words: &[Bytes], told: &mut Bytes) -> Result<(), Fail> {
    let (first, second) = halves(words);
    let first = set_of(alloc, first)?;
    let second = set_of(alloc, second)?;
    show_runs(alloc, &first.join(alloc, &second, how)?, told)
}

pub(crate) fn call(alloc: Global, words: &[Bytes], told: &mut Bytes) -> Result<(), Fail> {
    let rest = from(words, 2);
    match word(words, 1)? {
        b"set" => steps(alloc, rest, told),
        b"pile" => pile(alloc, rest, told),
        b"both" => join(alloc, Join::Both, rest, told),
        b"either" => join(alloc, Join::Either, rest, told),
        b"first-alone" => join(alloc, Join::FirstAlone, rest, told),
        b"second" => join(alloc, Join::Second, rest, told),
        _ => Err("a call of sets".into()),
    }
}
