// Drafts, and the messages that they become.
use mh_base::{Bytes, List};
use mh_drafts::{Draft, DraftFault};
use mhbuild_compose::{Given, GivenList, compose};
use row_text::{from, show_line, show_quoted_line, word};
use std::alloc::{AllocError, Global};
use std::test::Fail;

fn messages(alloc: Global, words: &[Bytes]) -> Result<Given, Fail> {
    let mut list = List::new(alloc);
    for text in words {
        list.push(Bytes::from_slice(alloc, text.as_slice())?)?;
    }
    Ok(Given::Messages(list))
}

/// `file` and its bytes, or `messages` and their texts.
fn given(alloc: Global, words: &[Bytes]) -> Result<Given, Fail> {
    match word(words, 0)? {
        b"file" => Ok(Given::File(Bytes::from_slice(alloc, word(words, 1)?)?)),
        b"messages" => messages(alloc, from(words, 1)),
        _ => Err("a file or messages".into()),
    }
}

/// What is given, each with a semicolon behind it.
fn all_given(alloc: Global, words: &[Bytes]) -> Result<GivenList, Fail> {
    let mut all = List::new(alloc);
    let mut one = List::new(alloc);
    for word in words {
        if word.as_slice() == b";".as_slice() {
            all.push(given(alloc, one.as_slice())?)?;
            one = List::new(alloc);
        } else {
            one.push(Bytes::from_slice(alloc, word.as_slice())?)?;
        }
    }
    Ok(all)
}

fn show_wrong(alloc: Global, line: u64, told: &mut Bytes) -> Result<(), Fail> {
    show_line(told, format!(in alloc; "line {line} is wrong")?.as_str())
}

/// The message of run 26 that a draft becomes with what is given, or its first wrong line.
fn show_message(
    alloc: Global,
    draft: &[u8],
    givens: &GivenList,
    told: &mut Bytes,
) -> Result<(), Fail> {
    match Draft::read(alloc, draft) {
        Ok(draft) => show_quoted_line(told, compose(alloc, &draft, givens, 26)?.as_slice()),
        Err(DraftFault::Bad(line)) => show_wrong(alloc, line, told),
        Err(DraftFault::Memory) => Err(AllocError.into()),
    }
}

/// The draft, and what is given for its wants.
pub(crate) fn call(alloc: Global, words: &[Bytes], told: &mut Bytes) -> Result<(), Fail> {
    let givens = all_given(alloc, from(words, 2))?;
    show_message(alloc, word(words, 1)?, &givens, told)
}
