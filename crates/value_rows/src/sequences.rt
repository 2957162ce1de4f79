// Sequences of the folder `inbox`.
use crate::numbers::{message, set_of};
use mh_base::{Bytes, FolderName};
use mh_profile::Entries;
use mh_sequences::{Mark, Pair, PairList, SeqName, Sequences};
use row_text::{
    from, own, show_line, show_number, show_quoted, show_quoted_line, show_whether, text, word,
};
use std::alloc::Global;
use std::test::Fail;

fn folder(alloc: Global) -> Result<FolderName, Fail> {
    Ok(FolderName::read(alloc, &own(alloc, b"inbox")?)?)
}

/// The sequences by the folder's text and the context's.
pub(crate) fn read(alloc: Global, text: &[u8], context: &[u8]) -> Result<Sequences, Fail> {
    let context = Entries::read(alloc, context)?;
    Ok(Sequences::read(alloc, text, &context, &folder(alloc)?)?)
}

fn name(alloc: Global, word: &[u8]) -> Result<SeqName, Fail> {
    Ok(SeqName::read(alloc, &own(alloc, word)?)?)
}

fn show_text(alloc: Global, sequences: &Sequences, told: &mut Bytes) -> Result<(), Fail> {
    show_quoted_line(told, sequences.print(alloc)?.as_slice())
}

/// The entries of the context.
fn show_private(alloc: Global, sequences: &Sequences, told: &mut Bytes) -> Result<(), Fail> {
    let entries = sequences.context_entries(alloc, &folder(alloc)?)?;
    for entry in entries.as_slice() {
        told.extend(b"private ")?;
        show_quoted(told, entry.name.as_slice())?;
        told.extend(b" ")?;
        show_quoted_line(told, entry.value.as_slice())?;
    }
    Ok(())
}

fn show_public(
    alloc: Global,
    sequences: &Sequences,
    names: &[Bytes],
    told: &mut Bytes,
) -> Result<(), Fail> {
    for word in names {
        show_whether(told, sequences.is_public(&name(alloc, word.as_slice())?))?;
    }
    Ok(())
}

/// The folder's text, the entries of the context, how many sequences there are, and whether each of some is public.
fn show(alloc: Global, words: &[Bytes], told: &mut Bytes) -> Result<(), Fail> {
    let sequences = read(alloc, word(words, 2)?, word(words, 3)?)?;
    show_text(alloc, &sequences, told)?;
    show_private(alloc, &sequences, told)?;
    show_number(alloc, told, sequences.len())?;
    show_line(told, "")?;
    show_public(alloc, &sequences, from(words, 4), told)
}

fn show_names(alloc: Global, names: &[Bytes], told: &mut Bytes) -> Result<(), Fail> {
    for name in names {
        let text = own(alloc, name.as_slice())?;
        show_whether(told, SeqName::read(alloc, &text).is_ok())?;
    }
    Ok(())
}

fn add(alloc: Global, words: &[Bytes]) -> Result<Mark, Fail> {
    Ok(Mark::Add {
        name: name(alloc, word(words, 0)?)?,
        numbers: set_of(alloc, from(words, 1))?,
        public: None,
    })
}

fn delete(alloc: Global, words: &[Bytes]) -> Result<Mark, Fail> {
    Ok(Mark::Delete {
        name: name(alloc, word(words, 0)?)?,
        numbers: set_of(alloc, from(words, 1))?,
        public: None,
    })
}

fn set(alloc: Global, words: &[Bytes]) -> Result<Mark, Fail> {
    Ok(Mark::Set {
        name: name(alloc, word(words, 0)?)?,
        numbers: set_of(alloc, from(words, 1))?,
        public: None,
    })
}

fn withdraw(alloc: Global, words: &[Bytes]) -> Result<Mark, Fail> {
    Ok(Mark::Withdraw {
        numbers: set_of(alloc, words)?,
    })
}

fn pair(word: &[u8]) -> Result<Pair, Fail> {
    let (from, to) = text(word)?.split_once('-').ok_or("two numbers")?;
    Ok(Pair {
        from: message(from.as_bytes())?,
        to: message(to.as_bytes())?,
    })
}

fn moved(alloc: Global, words: &[Bytes]) -> Result<Mark, Fail> {
    let mut pairs = PairList::new(alloc);
    for word in words {
        pairs.push(pair(word.as_slice())?)?;
    }
    Ok(Mark::Move { pairs })
}

fn cur(words: &[Bytes]) -> Result<Mark, Fail> {
    match words {
        [word] => Ok(Mark::Cur(Some(message(word.as_slice())?))),
        _ => Ok(Mark::Cur(None)),
    }
}

fn mark(alloc: Global, kind: &[u8], words: &[Bytes]) -> Result<Mark, Fail> {
    match kind {
        b"add" => add(alloc, words),
        b"delete" => delete(alloc, words),
        b"set" => set(alloc, words),
        b"withdraw" => withdraw(alloc, words),
        b"move" => moved(alloc, words),
        b"cur" => cur(words),
        _ => Err("a mark".into()),
    }
}

/// What a mark makes of the text.
fn show_marked(alloc: Global, words: &[Bytes], told: &mut Bytes) -> Result<(), Fail> {
    let mut sequences = read(alloc, word(words, 2)?, b"")?;
    let mark = mark(alloc, word(words, 1)?, from(words, 3))?;
    sequences.apply(&mark)?;
    show_text(alloc, &sequences, told)
}

/// What is left of the text where these messages are listed.
fn show_cut(alloc: Global, words: &[Bytes], told: &mut Bytes) -> Result<(), Fail> {
    let mut sequences = read(alloc, word(words, 2)?, b"")?;
    sequences.cut(&set_of(alloc, from(words, 3))?)?;
    show_text(alloc, &sequences, told)
}

pub(crate) fn call(alloc: Global, words: &[Bytes], told: &mut Bytes) -> Result<(), Fail> {
    match word(words, 1)? {
        b"is-name" => show_names(alloc, from(words, 2), told),
        b"read" => show(alloc, words, told),
        b"cut" => show_cut(alloc, words, told),
        _ => show_marked(alloc, words, told),
    }
}
