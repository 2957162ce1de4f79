// Words beside the plain body. Rows of words by hand stand in `value_rows`.
ghost use Rattle.std.specs.Prelude.{◌≡◌, IfOk};

use crate::plain::choose_plainly;
use mh_base::{FolderName, MsgNum, Text, TextList};
use mh_profile::Entries;
use mh_sequences::{NumSet, Sequences};
use msg_ranges::{Spec, select};
use std::alloc::Global;
use std::test::Fail;

fn number(n: u32) -> Result<MsgNum, Fail>
    ensures { IfOk result (λ m. m ≡ n) }
{
    Ok(MsgNum::new(n).ok_or("no message number")?)
}

/// The sequences of a folder's text.
fn read(alloc: Global, text: &str) -> Result<Sequences, Fail> {
    let context = Entries::read(alloc, b"")?;
    let folder = FolderName::read(alloc, &Text::from_str(alloc, "inbox")?)?;
    Ok(Sequences::read(alloc, text.as_bytes(), &context, &folder)?)
}

fn texts(alloc: Global, words: &[&str]) -> Result<TextList, Fail> {
    let mut list = TextList::new(alloc);
    for word in words {
        list.push(Text::from_str(alloc, word)?)?;
    }
    Ok(list)
}

/// Whether `select` and the plain body answer a word alike.
fn agrees(
    alloc: Global,
    numbers: &[MsgNum],
    listing: &NumSet,
    sequences: &Sequences,
    word: &str,
) -> Result<bool, Fail> {
    let text = Text::from_str(alloc, word)?;
    let words = texts(alloc, &[word])?;
    let quick = select(alloc, &words, listing, sequences, b"no");
    let plain = match Spec::read(alloc, &text, b"no") {
        Ok(spec) => choose_plainly(alloc, 0, &spec, numbers, sequences),
        Err(fault) => Err(fault),
    };
    Ok(match (quick, plain) {
        (Ok(set), Ok(list)) => {
            set.len() == list.len() as u64
                && list
                    .as_slice()
                    .iter()
                    .enumerate()
                    .all(|(i, n)| set.at(i as u64) == Some(*n))
        }
        (Err(quick), Err(plain)) => quick == plain,
        _ => false,
    })
}

/// The messages that a number has as its bits, from 1 on.
fn numbers_in(alloc: Global, bits: u32) -> Result<Vec<MsgNum>, Fail> {
    let mut numbers = Vec::new(alloc);
    for n in 1..8 {
        if bits >> n & 1 == 1 {
            numbers.push(number(n)?)?;
        }
    }
    Ok(numbers)
}

/// How many words of a table are answered otherwise by the plain body.
fn differing(alloc: Global, bits: u32, text: &str) -> Result<u32, Fail> {
    let numbers = numbers_in(alloc, bits)?;
    let mut listing = NumSet::new(alloc);
    for n in numbers.as_slice() {
        listing.insert(*n)?;
    }
    let sequences = read(alloc, text)?;
    let mut others: u32 = 0;
    for word in WORDS {
        if !agrees(alloc, numbers.as_slice(), &listing, &sequences, word)? {
            others = others.saturating_add(1);
        }
    }
    Ok(others)
}

const WORDS: [&str; 40] = [
    "1",
    "4",
    "7",
    "first",
    "last",
    "cur",
    "prev",
    "next",
    "all",
    "2-5",
    "5-2",
    "first-cur",
    "cur-last",
    "prev-next",
    "3-3",
    "next-first",
    "4:1",
    "4:2",
    "4:-2",
    "first:3",
    "first:-3",
    "last:2",
    "last:+2",
    "cur:2",
    "cur:-2",
    "prev:2",
    "prev:+2",
    "next:2",
    "next:-2",
    "todo",
    "todo:2",
    "todo:+1",
    "todo:-2",
    "todo:first",
    "todo:last",
    "todo:next",
    "todo:prev",
    "none",
    "notodo",
    "nonone",
];

#[test]
fn words_mean_what_the_plain_body_says(rt: HostRuntime) -> Result<(), Fail> {
    let alloc = rt.alloc();
    for bits in 0..64 {
        assert_eq!(rt;
            differing(alloc, bits * 4 + 2, "todo: 1-2 5 7\n")?,
            0,
            "{bits}"
        );
        assert_eq!(rt;
            differing(alloc, bits * 2, "cur: 4\ntodo: 2 4-6\n")?,
            0,
            "{bits}"
        );
    }
    Ok(())
}
