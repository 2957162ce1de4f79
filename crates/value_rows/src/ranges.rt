// Words that select messages.
use crate::numbers::{set_of, show_all};
use crate::sequences;
use mh_base::Bytes;
use mh_sequences::NumSet;
use msg_ranges::select;
use row_text::{from, show_line, texts, word};
use std::alloc::Global;
use std::test::Fail;

/// The messages of a folder, in one word.
fn listing(alloc: Global, word: &[u8]) -> Result<NumSet, Fail> {
    let numbers = row_text::words(alloc, word)?;
    set_of(alloc, &numbers)
}

/// The messages, the folder's text, the prefix of negation, and words, which select messages or are refused.
pub(crate) fn call(alloc: Global, words: &[Bytes], told: &mut Bytes) -> Result<(), Fail> {
    let listing = listing(alloc, word(words, 1)?)?;
    let sequences = sequences::read(alloc, word(words, 2)?, b"")?;
    let negation = word(words, 3)?;
    let chosen = texts(alloc, from(words, 4))?;
    match select(alloc, &chosen, &listing, &sequences, negation) {
        Ok(set) => show_all(alloc, &set, told),
        Err(fault) => show_line(told, format!(in alloc; "{fault}")?.as_str()),
    }
}
