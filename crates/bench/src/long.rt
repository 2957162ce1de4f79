// Long texts and many words: how the time grows with their size.
use crate::ranges::{inbox, number};
use crate::rates::micros_since;
use mh_base::{MsgNum, Text, TextList};
use mh_profile::Entries;
use mh_sequences::{Join, Mark, NumSet, Pair, PairList, Pile, Run, Sequences};
use msg_ranges::select;
use std::alloc::Global;
use std::rt::Clock;
use std::test::Fail;
use std::time::Instant;

/// What is done with many items.
#[derive(Clone, Copy)]
enum Case {
    DescendingList,
    MixedList,
    OneNameManyFields,
    ManyNames,
    ManyPrivateNames,
    InsertDescending,
    RemoveAscending,
    RemoveTogether,
    AtEachPlace,
    MoveAll,
    CutManyNames,
    SelectAscending,
    SelectMixed,
    SelectLast,
    RemoveEntries,
    RemoveEntriesTogether,
}

impl Case {
    fn title(self) -> &'static str {
        match self {
            Case::DescendingList => "a list in descending order",
            Case::MixedList => "a list in mixed order",
            Case::OneNameManyFields => "fields of one name",
            Case::ManyNames => "public names",
            Case::ManyPrivateNames => "private names beside public ones",
            Case::InsertDescending => "inserts one by one, in descending order",
            Case::RemoveAscending => "removals one by one, in ascending order",
            Case::RemoveTogether => "removals at once, in mixed order",
            Case::AtEachPlace => "the number at each place",
            Case::MoveAll => "pairs of a move",
            Case::CutManyNames => "names cut to a listing",
            Case::SelectAscending => "words in ascending order",
            Case::SelectMixed => "words in mixed order",
            Case::SelectLast => "words for the last two",
            Case::RemoveEntries => "entries removed one by one",
            Case::RemoveEntriesTogether => "entries removed at once",
        }
    }
}

/// A number below `count` for each one below it, in an order that looks like chance.
fn mixed(index: u32, count: u32) -> u32 {
    (u64::from(index) * 7919 % u64::from(count.max(1))) as u32
}

/// The number at this place among every second number.
fn odd(place: u32) -> Result<MsgNum, Fail> {
    number(2 * place.min(499_999) + 1)
}

/// Every second number, `count` of them.
fn scattered(alloc: Global, count: u32) -> Result<NumSet, Fail> {
    let mut set = NumSet::new(alloc);
    for index in 0..count {
        set.insert(odd(index)?)?;
    }
    Ok(set)
}

/// Which of `count` items stands at this place.
fn place_in(case: Case, index: u32, count: u32) -> u32 {
    match case {
        Case::DescendingList => count.saturating_sub(index).saturating_sub(1),
        Case::SelectAscending => index,
        _ => mixed(index, count),
    }
}

fn item(alloc: Global, case: Case, place: u32) -> Result<String, Fail> {
    let number = odd(place)?.get();
    Ok(match case {
        Case::OneNameManyFields => format!(in alloc; "todo: {number}\n")?,
        _ => format!(in alloc; " {number}")?,
    })
}

fn push_items(alloc: Global, text: &mut String, case: Case, count: u32) -> Result<(), Fail> {
    for index in 0..count {
        let item = item(alloc, case, place_in(case, index, count))?;
        text.push_str(item.as_str())?;
    }
    Ok(())
}

fn list(alloc: Global, case: Case, count: u32) -> Result<String, Fail> {
    let mut text = String::new(alloc);
    if !matches!(case, Case::OneNameManyFields) {
        text.push_str("todo:")?;
    }
    push_items(alloc, &mut text, case, count)?;
    text.push_str("\n")?;
    Ok(text)
}

fn public_line(alloc: Global, place: u32) -> Result<String, Fail> {
    let number = odd(place)?.get();
    Ok(format!(in alloc; "s{place}: {number}\n")?)
}

fn names(alloc: Global, count: u32) -> Result<String, Fail> {
    let mut text = String::new(alloc);
    for index in 0..count {
        let line = public_line(alloc, mixed(index, count))?;
        text.push_str(line.as_str())?;
    }
    Ok(text)
}

fn private_line(alloc: Global, place: u32) -> Result<String, Fail> {
    let number = odd(place)?.get();
    Ok(format!(in alloc; "atr-p{place}-inbox: {number}\n")?)
}

fn private_names(alloc: Global, count: u32) -> Result<Entries, Fail> {
    let mut text = String::new(alloc);
    for index in 0..count {
        let line = private_line(alloc, mixed(index, count))?;
        text.push_str(line.as_str())?;
    }
    Ok(Entries::read(alloc, text.as_bytes())?)
}

fn word(alloc: Global, place: u32) -> Result<Text, Fail> {
    let number = odd(place)?.get();
    let word = format!(in alloc; "{number}")?;
    Ok(Text::from_str(alloc, word.as_str())?)
}

fn word_in(alloc: Global, case: Case, index: u32, count: u32) -> Result<Text, Fail> {
    match case {
        Case::SelectLast => Ok(Text::from_str(alloc, "last:2")?),
        _ => word(alloc, place_in(case, index, count)),
    }
}

fn words(alloc: Global, case: Case, count: u32) -> Result<TextList, Fail> {
    let mut words = TextList::new(alloc);
    for index in 0..count {
        words.push(word_in(alloc, case, index, count)?)?;
    }
    Ok(words)
}

fn sequences_in(alloc: Global, text: &str, context: &Entries) -> Result<Sequences, Fail> {
    let folder = inbox(alloc)?;
    Ok(Sequences::read(alloc, text.as_bytes(), context, &folder)?)
}

/// The sequences of a text, where the context has none.
fn public_in(alloc: Global, text: &str) -> Result<Sequences, Fail> {
    let context = Entries::read(alloc, b"")?;
    sequences_in(alloc, text, &context)
}

/// Microseconds that reading takes.
fn read(
    rt: &impl Clock,
    alloc: Global,
    text: &str,
    context: &Entries,
) -> Result<(u128, u64), Fail> {
    let start = Instant::now(rt)?;
    let sequences = sequences_in(alloc, text, context)?;
    Ok((micros_since(rt, start)?, sequences.len()))
}

fn inserted(alloc: Global, count: u32) -> Result<NumSet, Fail> {
    let mut set = NumSet::new(alloc);
    for index in 0..count {
        set.insert(odd(count - 1 - index)?)?;
    }
    Ok(set)
}

fn insert(rt: &impl Clock, alloc: Global, count: u32) -> Result<(u128, u64), Fail> {
    let start = Instant::now(rt)?;
    let set = inserted(alloc, count)?;
    Ok((micros_since(rt, start)?, set.runs()))
}

fn remove_all(set: &mut NumSet, count: u32) -> Result<(), Fail> {
    for index in 0..count {
        set.remove(odd(index)?)?;
    }
    Ok(())
}

fn remove(rt: &impl Clock, alloc: Global, count: u32) -> Result<(u128, u64), Fail> {
    let mut set = scattered(alloc, count)?;
    let start = Instant::now(rt)?;
    remove_all(&mut set, count)?;
    Ok((micros_since(rt, start)?, set.runs()))
}

/// Numbers in a mixed order.
fn mixed_pile(alloc: Global, count: u32) -> Result<Pile, Fail> {
    let mut pile = Pile::new(alloc);
    for index in 0..count {
        let n = odd(mixed(index, count))?;
        pile.add_run(Run { from: n, to: n })?;
    }
    Ok(pile)
}

fn removed_together(alloc: Global, set: &NumSet, count: u32) -> Result<NumSet, Fail> {
    let gone = mixed_pile(alloc, count)?.into_set()?;
    Ok(set.join(alloc, &gone, Join::FirstAlone)?)
}

fn remove_together(rt: &impl Clock, alloc: Global, count: u32) -> Result<(u128, u64), Fail> {
    let set = scattered(alloc, count)?;
    let start = Instant::now(rt)?;
    let left = removed_together(alloc, &set, count)?;
    Ok((micros_since(rt, start)?, left.runs()))
}

/// The last of the numbers, each looked at.
fn visited(set: &NumSet, count: u32) -> u64 {
    let mut last = 0;
    for index in 0..count {
        if let Some(n) = set.at(u64::from(index)) {
            last = u64::from(n.get());
        }
    }
    last
}

fn visit(rt: &impl Clock, alloc: Global, count: u32) -> Result<(u128, u64), Fail> {
    let set = scattered(alloc, count)?;
    let start = Instant::now(rt)?;
    let last = visited(&set, count);
    Ok((micros_since(rt, start)?, last))
}

fn pair(place: u32) -> Result<Pair, Fail> {
    Ok(Pair {
        from: odd(place)?,
        to: number(place.min(999_998) + 1)?,
    })
}

fn pairs(alloc: Global, count: u32) -> Result<PairList, Fail> {
    let mut pairs = PairList::new(alloc);
    for index in 0..count {
        pairs.push(pair(mixed(index, count))?)?;
    }
    Ok(pairs)
}

fn listed(alloc: Global, count: u32) -> Result<Sequences, Fail> {
    let text = list(alloc, Case::MixedList, count)?;
    public_in(alloc, text.as_str())
}

fn moves(alloc: Global, count: u32) -> Result<Mark, Fail> {
    let pairs = pairs(alloc, count)?;
    Ok(Mark::Move { pairs })
}

fn time_mark(rt: &impl Clock, sequences: &mut Sequences, mark: &Mark) -> Result<(u128, u64), Fail> {
    let start = Instant::now(rt)?;
    sequences.apply(mark)?;
    Ok((micros_since(rt, start)?, sequences.len()))
}

fn move_all(rt: &impl Clock, alloc: Global, count: u32) -> Result<(u128, u64), Fail> {
    let mut sequences = listed(alloc, count)?;
    let mark = moves(alloc, count)?;
    time_mark(rt, &mut sequences, &mark)
}

fn named(alloc: Global, count: u32) -> Result<Sequences, Fail> {
    let text = names(alloc, count)?;
    public_in(alloc, text.as_str())
}

fn cut(rt: &impl Clock, alloc: Global, count: u32) -> Result<(u128, u64), Fail> {
    let mut sequences = named(alloc, count)?;
    let listing = scattered(alloc, count)?;
    let start = Instant::now(rt)?;
    sequences.cut(&listing)?;
    Ok((micros_since(rt, start)?, sequences.len()))
}

fn time_selection(
    rt: &impl Clock,
    alloc: Global,
    words: &TextList,
    listing: &NumSet,
    sequences: &Sequences,
) -> Result<(u128, u64), Fail> {
    let start = Instant::now(rt)?;
    let set = select(alloc, words, listing, sequences, b"")?;
    Ok((micros_since(rt, start)?, set.len()))
}

fn select_words(
    rt: &impl Clock,
    alloc: Global,
    case: Case,
    count: u32,
) -> Result<(u128, u64), Fail> {
    let sequences = public_in(alloc, "")?;
    let listing = scattered(alloc, count)?;
    let words = words(alloc, case, count)?;
    time_selection(rt, alloc, &words, &listing, &sequences)
}

fn remove_private(alloc: Global, entries: &mut Entries, count: u32) -> Result<(), Fail> {
    for index in 0..count {
        let name = format!(in alloc; "atr-p{index}-inbox")?;
        entries.remove(name.as_bytes())?;
    }
    Ok(())
}

fn remove_entries(rt: &impl Clock, alloc: Global, count: u32) -> Result<(u128, u64), Fail> {
    let mut entries = private_names(alloc, count)?;
    let start = Instant::now(rt)?;
    remove_private(alloc, &mut entries, count)?;
    Ok((micros_since(rt, start)?, entries.len()))
}

/// The text that a case reads.
fn text_of(alloc: Global, case: Case, count: u32) -> Result<String, Fail> {
    match case {
        Case::ManyNames | Case::ManyPrivateNames => names(alloc, count),
        _ => list(alloc, case, count),
    }
}

/// The context that it reads it beside.
fn context_of(alloc: Global, case: Case, count: u32) -> Result<Entries, Fail> {
    match case {
        Case::ManyPrivateNames => private_names(alloc, count),
        _ => Ok(Entries::read(alloc, b"")?),
    }
}

fn read_case(rt: &impl Clock, alloc: Global, case: Case, count: u32) -> Result<(u128, u64), Fail> {
    let text = text_of(alloc, case, count)?;
    let context = context_of(alloc, case, count)?;
    read(rt, alloc, text.as_str(), &context)
}

/// The names of the private sequences' entries.
fn private_texts(alloc: Global, count: u32) -> Result<Vec<String>, Fail> {
    let mut texts = Vec::new(alloc);
    for index in 0..count {
        texts.push(format!(in alloc; "atr-p{}-inbox", index)?)?;
    }
    Ok(texts)
}

fn remove_private_together(
    alloc: Global,
    entries: &mut Entries,
    texts: &[String],
) -> Result<(), Fail> {
    let mut names = Vec::new(alloc);
    for text in texts {
        names.push(text.as_bytes())?;
    }
    Ok(entries.remove_all(&names)?)
}

fn remove_entries_together(
    rt: &impl Clock,
    alloc: Global,
    count: u32,
) -> Result<(u128, u64), Fail> {
    let mut entries = private_names(alloc, count)?;
    let texts = private_texts(alloc, count)?;
    let start = Instant::now(rt)?;
    remove_private_together(alloc, &mut entries, &texts)?;
    Ok((micros_since(rt, start)?, entries.len()))
}

/// How many microseconds a case takes with so many items, and what comes out of it.
fn run(rt: &impl Clock, alloc: Global, case: Case, count: u32) -> Result<(u128, u64), Fail> {
    match case {
        Case::InsertDescending => insert(rt, alloc, count),
        Case::RemoveAscending => remove(rt, alloc, count),
        Case::RemoveTogether => remove_together(rt, alloc, count),
        Case::AtEachPlace => visit(rt, alloc, count),
        Case::MoveAll => move_all(rt, alloc, count),
        Case::CutManyNames => cut(rt, alloc, count),
        Case::SelectAscending | Case::SelectMixed | Case::SelectLast => {
            select_words(rt, alloc, case, count)
        }
        Case::RemoveEntries => remove_entries(rt, alloc, count),
        Case::RemoveEntriesTogether => remove_entries_together(rt, alloc, count),
        _ => read_case(rt, alloc, case, count),
    }
}

/// A case that took so many microseconds is not tried with more items.
const PATIENCE: u128 = 8_000_000;

/// Tells the first time of a case.
fn tell_first(rt: &impl Print, count: u32, taken: u128, outcome: u64) -> Result<(), Fail> {
    println!(rt; "  {count}: {taken} microseconds ({outcome})")?;
    Ok(())
}

/// Tells a later time, and how often it has the one before.
fn tell_later(
    rt: &impl Print,
    count: u32,
    taken: u128,
    before: u128,
    outcome: u64,
) -> Result<(), Fail> {
    let tenths = taken / (before / 10).max(1);
    let whole = tenths / 10;
    let part = tenths % 10;
    println!(rt; "  {count}: {taken} microseconds, {whole}.{part} times ({outcome})")?;
    Ok(())
}

/// Measures a case with so many items, and gives its time; or passes it over.
fn measure_one(
    rt: &(impl Print + Clock),
    alloc: Global,
    case: Case,
    count: u32,
    before: u128,
) -> Result<u128, Fail> {
    if before > PATIENCE {
        println!(rt; "  {count}: not tried")?;
        return Ok(before);
    }
    let (taken, result) = run(rt, alloc, case, count)?;
    if before == 0 {
        tell_first(rt, count, taken, result)?;
    } else {
        tell_later(rt, count, taken, before, result)?;
    }
    Ok(taken.max(1))
}

fn measure(rt: &(impl Print + Clock), alloc: Global, case: Case) -> Result<(), Fail> {
    println!(rt; "{}:", case.title())?;
    let mut before = 0;
    for count in [10_000, 100_000, 400_000] {
        before = measure_one(rt, alloc, case, count, before)?;
    }
    Ok(())
}

/// Measures each case with 10,000 items, 100,000 and 400,000.
pub(crate) fn measure_all(rt: &(impl Print + Clock), alloc: Global) -> Result<(), Fail> {
    let cases = [
        Case::DescendingList,
        Case::MixedList,
        Case::OneNameManyFields,
        Case::ManyNames,
        Case::ManyPrivateNames,
        Case::InsertDescending,
        Case::RemoveAscending,
        Case::RemoveTogether,
        Case::AtEachPlace,
        Case::MoveAll,
        Case::CutManyNames,
        Case::SelectAscending,
        Case::SelectMixed,
        Case::SelectLast,
        Case::RemoveEntries,
        Case::RemoveEntriesTogether,
    ];
    for case in cases {
        measure(rt, alloc, case)?;
    }
    Ok(())
}
