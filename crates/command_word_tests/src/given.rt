// Words and profiles, and how what they say stands beside a row's text.
use crate::wanted::Wanted;
use command_words::Ended;
use folder_files::Refusal;
use look_words::FormatWords;
use mh_base::{Bytes, FolderName, Text, TextList, WordWhy};
use mh_profile::Entries;
use std::alloc::{AllocError, Global};
use step_plans::CommandFault;

/// A text of the profile, the command's words, and how what they say is shown.
pub type Row = (&'static str, &'static str, &'static str);

/// What may stand as a row's text.
pub trait Shown {
    fn is_shown(&self, wanted: &mut Wanted) -> bool;
}

/// What the words of a command say.
pub trait Said: Shown + Drop {
    fn read(alloc: Global, entries: &Entries, words: &[String]) -> Result<Self, Ended>;
}

/// The words between spaces. An empty text has no word.
fn words(alloc: Global, line: &str) -> Result<Vec<String>, AllocError> {
    let mut words = Vec::new(alloc);
    for word in line.split(' ') {
        if !word.is_empty() {
            words.push(String::from_str(alloc, word)?)?;
        }
    }
    Ok(words)
}

fn is_all_shown<S: Shown>(shown: &S, text: &str) -> bool {
    let mut wanted = Wanted {
        rest: text,
        between: ' ',
    };
    shown.is_shown(&mut wanted) && wanted.rest.is_empty()
}

/// Whether one of the two is shown so.
fn is_either_shown<S: Shown + Drop, E: Shown + Drop>(said: Result<S, E>, text: &str) -> bool {
    match said {
        Ok(said) => is_all_shown(&said, text),
        Err(ended) => is_all_shown(&ended, text),
    }
}

fn is_right<S: Said>(alloc: Global, row: &Row) -> Result<bool, AllocError> {
    let entries = Entries::read(alloc, row.0.as_bytes())?;
    let words = words(alloc, row.1)?;
    Ok(is_either_shown(S::read(alloc, &entries, words.as_slice()), row.2))
}

/// The first row that doesn't say so.
pub fn wrong_row<S: Said>(alloc: Global, rows: &[Row]) -> Option<Row> {
    for row in rows {
        if is_right::<S>(alloc, row) != Ok(true) {
            return Some(*row);
        }
    }
    None
}

/// The folder, or a dash where there is none.
pub fn folder_text(folder: &Option<FolderName>) -> &str {
    match folder {
        Some(name) => name.text().as_str(),
        None => "-",
    }
}

/// The word, or a dash where there is none.
pub fn word_text(word: &Option<Text>) -> &str {
    match word {
        Some(text) => text.as_str(),
        None => "-",
    }
}

pub fn flag_text(flag: bool) -> &'static str {
    if flag { "true" } else { "false" }
}

/// The format that words name: the word, its file behind an `@`, or a dash where there is none.
pub fn is_format(wanted: &mut Wanted, format: &FormatWords) -> bool {
    match format {
        FormatWords::Default => wanted.is("-"),
        FormatWords::Word(word) => wanted.is(word.as_str()),
        FormatWords::File(path) => wanted.is_between("@", path.as_str(), ""),
    }
}

pub fn are_texts(wanted: &mut Wanted, texts: &TextList) -> bool {
    for text in texts.as_slice() {
        if !wanted.is(text.as_str()) {
            return false;
        }
    }
    true
}

fn why_text(why: WordWhy) -> &'static str {
    match why {
        WordWhy::NoCommand => "NoCommand",
        WordWhy::Unknown => "Unknown",
        WordWhy::Ambiguous => "Ambiguous",
        WordWhy::NoValue => "NoValue",
        WordWhy::BadValue => "BadValue",
        WordWhy::Missing => "Missing",
        WordWhy::Extra => "Extra",
    }
}

fn is_refusal(wanted: &mut Wanted, refusal: &Refusal) -> bool {
    match refusal {
        Refusal::BadSwitch { place, why } => {
            wanted.is(why_text(*why)) && wanted.is_number("@", *place)
        }
        Refusal::BadFolder(text) => {
            wanted.is("bad") && wanted.is("folder") && wanted.is(text.as_str())
        }
        Refusal::BadSequenceName(text) => {
            wanted.is("bad") && wanted.is("sequence") && wanted.is(text.as_str())
        }
        _ => false,
    }
}

/// The word that a refusal speaks of, in brackets, or nothing.
fn is_word(wanted: &mut Wanted, word: &Option<Bytes>) -> bool {
    match word {
        Some(word) => wanted.is_bytes_between("[", word.as_slice(), "]"),
        None => true,
    }
}

/// The fault, and the word that it speaks of.
impl Shown for Ended {
    fn is_shown(&self, wanted: &mut Wanted) -> bool {
        match &self.fault {
            CommandFault::Refused(refusal) => {
                is_refusal(wanted, refusal) && is_word(wanted, &self.word)
            }
            _ => false,
        }
    }
}
