// Words that select messages in a folder of 999,999 messages, and in one of every second number; then long texts and
// many words.
use crate::long;
use crate::rates::micros_since;
use mh_base::{FolderName, MsgNum, Text, TextList};
use mh_profile::Entries;
use mh_sequences::{Mark, NumSet, Run, SeqName, Sequences};
use msg_ranges::select;
use std::alloc::Global;
use std::rt::Clock;
use std::test::Fail;
use std::time::Instant;

pub fn number(n: u32) -> Result<MsgNum, Fail> {
    Ok(MsgNum::new(n).ok_or("no message number")?)
}

/// All numbers, in one run.
fn whole(alloc: Global) -> Result<NumSet, Fail> {
    let mut set = NumSet::new(alloc);
    set.insert_run(Run {
        from: MsgNum::new(1).ok_or("no message number")?,
        to: MsgNum::new(999_999).ok_or("no message number")?,
    })?;
    Ok(set)
}

/// Every second number.
fn alternating(alloc: Global) -> Result<NumSet, Fail> {
    let mut set = NumSet::new(alloc);
    set.reserve(500_000)?;
    for half in 0..500_000u32 {
        set.insert(number(2 * half + 1)?)?;
    }
    Ok(set)
}

pub fn inbox(alloc: Global) -> Result<FolderName, Fail> {
    let word = Text::from_str(alloc, "inbox")?;
    Ok(FolderName::read(alloc, &word)?)
}

fn no_sequences(alloc: Global) -> Result<Sequences, Fail> {
    let folder = inbox(alloc)?;
    Ok(Sequences::read(alloc, b"", &Entries::new(alloc), &folder)?)
}

/// A folder whose sequence `todo` has these numbers.
fn marked(alloc: Global, numbers: NumSet) -> Result<Sequences, Fail> {
    let mut sequences = no_sequences(alloc)?;
    let mark = Mark::Set {
        name: SeqName::read(alloc, &Text::from_str(alloc, "todo")?)?,
        numbers,
        public: None,
    };
    sequences.apply(&mark)?;
    Ok(sequences)
}

fn one_word(alloc: Global, word: &str) -> Result<TextList, Fail> {
    let mut words = TextList::new(alloc);
    words.push(Text::from_str(alloc, word)?)?;
    Ok(words)
}

fn measure_word(
    rt: &(impl Print + Clock),
    alloc: Global,
    what: &str,
    listing: &NumSet,
    sequences: &Sequences,
    word: &str,
) -> Result<(), Fail> {
    let words = one_word(alloc, word)?;
    let start = Instant::now(rt)?;
    let set = select(alloc, &words, listing, sequences, b"")?;
    let taken = micros_since(rt, start)?;
    let found = set.len();
    println!(rt; "{what}, {word}: {taken} microseconds ({found})")?;
    Ok(())
}

fn measure_words(
    rt: &(impl Print + Clock),
    alloc: Global,
    what: &str,
    listing: &NumSet,
    sequences: &Sequences,
) -> Result<(), Fail> {
    for word in ["all", "4-99", "todo:100", "todo"] {
        measure_word(rt, alloc, what, listing, sequences, word)?;
    }
    Ok(())
}

fn measure_whole(rt: &(impl Print + Clock), alloc: Global) -> Result<(), Fail> {
    let listing = whole(alloc)?;
    let sequences = marked(alloc, whole(alloc)?)?;
    measure_words(rt, alloc, "one run", &listing, &sequences)
}

fn measure_alternating(rt: &(impl Print + Clock), alloc: Global) -> Result<(), Fail> {
    let listing = alternating(alloc)?;
    let sequences = marked(alloc, alternating(alloc)?)?;
    measure_words(rt, alloc, "every second number", &listing, &sequences)
}

pub fn measure(rt: &(impl Print + Clock), alloc: Global) -> Result<(), Fail> {
    measure_whole(rt, alloc)?;
    measure_alternating(rt, alloc)?;
    long::measure_all(rt, alloc)
}
