// The lines of error output.
ghost use Rattle.std.specs.Prelude.{◌≡◌, ◌++◌, IfOk, OnOk, [], decimal, codes, option_map, unwrap_or};
ghost use Rattle.std.specs.Str.{encode_utf8_all};
ghost use Rattle.mh_tools.specs.Lines.{command_text, word_text, refusal_text, place_text, which_text, status_text, error_line_of};

use crate::Status;
use crate::shown::shown;
use folder_files::{Place, Refusal, Which};
use itoa::Buffer;
use mh_base::{Bytes, FolderName, Text, WordWhy};
use std::alloc::{AllocError, Global};

fn say_text(line: &mut Bytes, words: &[u8], text: &Text) -> Result<(), AllocError>
    ensures { OnOk result (line.new ≡ line.old ++ (words.now ++ encode_utf8_all text.now)) }
{
    line.extend(words)?;
    line.extend(text.as_str().as_bytes())
}

fn say_folder(line: &mut Bytes, words: &[u8], name: &FolderName) -> Result<(), AllocError>
    ensures { OnOk result (line.new ≡ line.old ++ (words.now ++ encode_utf8_all name.now)) }
{
    say_text(line, words, name.text())
}

fn say_bytes(line: &mut Bytes, words: &[u8], bytes: &[u8]) -> Result<(), AllocError>
    ensures { OnOk result (line.new ≡ line.old ++ (words.now ++ bytes.now)) }
{
    line.extend(words)?;
    line.extend(bytes)
}

fn say_number(line: &mut Bytes, words: &[u8], number: u64) -> Result<(), AllocError>
    ensures { OnOk result (line.new ≡ line.old ++ (words.now ++ decimal number)) }
{
    let mut buffer = Buffer::new();
    say_bytes(line, words, buffer.format(number).as_bytes())
}

fn say_lengths(line: &mut Bytes, length: u64, limit: u64) -> Result<(), AllocError>
    ensures { OnOk result
        (line.new ≡ line.old
        ++ ((codes "too large: " ++ decimal length) ++ (codes " bytes, limit " ++ decimal limit))) }
{
    say_number(line, b"too large: ", length)?;
    say_number(line, b" bytes, limit ", limit)
}

fn say_command(line: &mut Bytes, word: Option<&[u8]>) -> Result<(), AllocError>
    ensures { OnOk result (line.new ≡ line.old ++ command_text (option_map (λ w. w.now) word.entry)) }
{
    match word {
        None => line.extend(b"no command"),
        Some(word) => say_bytes(line, b"unknown command: ", word),
    }
}

/// The word's bytes, or none.
fn bytes_of(word: Option<&[u8]>) -> &[u8]
    ensures { result.now ≡ unwrap_or (option_map (λ w. w.now) word.entry) [] }
{
    match word {
        None => &[],
        Some(word) => word,
    }
}

fn say_word(line: &mut Bytes, word: Option<&[u8]>, why: WordWhy) -> Result<(), AllocError>
    ensures { OnOk result (line.new ≡ line.old ++ word_text (option_map (λ w. w.now) word.entry) why) }
{
    match why {
        WordWhy::NoCommand => say_command(line, word),
        WordWhy::Unknown => say_bytes(line, b"unknown switch: ", bytes_of(word)),
        WordWhy::Ambiguous => say_bytes(line, b"ambiguous switch: ", bytes_of(word)),
        WordWhy::NoValue => say_bytes(line, b"missing value: ", bytes_of(word)),
        WordWhy::BadValue => say_bytes(line, b"bad value: ", bytes_of(word)),
        WordWhy::Missing => line.extend(b"missing word"),
        WordWhy::Extra => say_bytes(line, b"unexpected word: ", bytes_of(word)),
    }
}

fn say_refusal(line: &mut Bytes, word: Option<&[u8]>, refusal: &Refusal) -> Result<(), AllocError>
    ensures { OnOk result (line.new ≡ line.old ++ refusal_text (option_map (λ w. w.now) word.entry) refusal.now) }
{
    match refusal {
        Refusal::BadSwitch { why, .. } => say_word(line, word, *why),
        Refusal::BadFolder(text) => say_text(line, b"bad folder name: ", text),
        Refusal::NoFolder(name) => say_folder(line, b"no such folder: +", name),
        Refusal::BadSpec(text) => say_text(line, b"bad message name: ", text),
        Refusal::Absent(text) => say_text(line, b"no such message: ", text),
        Refusal::EmptyRange(text) => say_text(line, b"no messages in range: ", text),
        Refusal::EmptySequence(text) => say_text(line, b"no messages in sequence: ", text),
        Refusal::BadSequenceName(text) => say_text(line, b"bad sequence name: ", text),
        Refusal::BadFormat { at } => say_number(line, b"bad format at byte ", *at),
        Refusal::BadDate(text) => say_text(line, b"bad date: ", text),
        Refusal::BadExpr { place } => say_number(line, b"bad expression at word ", *place),
        Refusal::NoMatch => line.extend(b"no messages match"),
        Refusal::NoMail => line.extend(b"no mail to incorporate"),
        Refusal::NotADrop => line.extend(b"not a mail drop"),
        Refusal::SameFolder(name) => say_folder(line, b"same folder: +", name),
        Refusal::Full(name) => say_folder(line, b"folder is full: +", name),
        Refusal::BadDraft { line: number } => say_number(line, b"bad draft at line ", *number),
        Refusal::NoPart(text) => say_text(line, b"no such part: ", text),
        Refusal::WouldReplace(name) => say_bytes(line, b"file exists: ", name.bytes()),
        Refusal::TooLarge { length, limit } => say_lengths(line, *length, *limit),
        Refusal::DropGrown => line.extend(b"mail drop has grown"),
        Refusal::NoFile(path) => say_bytes(line, b"no such file: ", path.text.as_slice()),
        Refusal::DropChanged => line.extend(b"mail drop has changed"),
    }
}

fn say_place(line: &mut Bytes, place: &Place) -> Result<(), AllocError>
    ensures { OnOk result (line.new ≡ line.old ++ place_text place.now) }
{
    match place {
        Place::Home => line.extend(b"home directory"),
        Place::Work => line.extend(b"current directory"),
        Place::Mail(_) => line.extend(b"mail directory"),
        Place::Folder(_, name) => say_folder(line, b"+", name),
    }
}

fn say_which(line: &mut Bytes, which: Which) -> Result<(), AllocError>
    ensures { OnOk result (line.new ≡ line.old ++ which_text which) }
{
    match which {
        Which::Files => line.extend(b"fault of files"),
        Which::Source => line.extend(b"fault of input"),
        Which::Out => line.extend(b"fault of output"),
    }
}

fn say_locked(line: &mut Bytes, place: &Place) -> Result<(), AllocError>
    ensures { OnOk result (line.new ≡ line.old ++ (place_text place.now ++ codes " is locked")) }
{
    say_place(line, place)?;
    line.extend(b" is locked")
}

fn say_meddled(line: &mut Bytes, place: &Place, name: &[u8]) -> Result<(), AllocError>
    ensures { OnOk result
        (line.new ≡ line.old
        ++ (codes "name " ++ name.now ++ codes " in " ++ place_text place.now ++ codes " was changed meanwhile")) }
{
    say_bytes(line, b"name ", name)?;
    line.extend(b" in ")?;
    say_place(line, place)?;
    line.extend(b" was changed meanwhile")
}

fn say_status(line: &mut Bytes, word: Option<&[u8]>, status: &Status) -> Result<(), AllocError>
    ensures { OnOk result (line.new ≡ line.old ++ status_text (option_map (λ w. w.now) word.entry) status.now) }
{
    match status {
        Status::Done => Ok(()),
        Status::Refused(refusal) => say_refusal(line, word, refusal),
        Status::Faulted(which) => say_which(line, *which),
        Status::Locked(place) => say_locked(line, place),
        Status::Meddled(place, name) => say_meddled(line, place, name.bytes()),
        Status::NoMemory => line.extend(b"no memory"),
    }
}

/// The line of a status; `word` is the word that a refusal of words speaks of.
#[tactic(auto, unfolding(crate::specs::Lines::error_line_of))]
pub(crate) fn error_line(
    alloc: Global,
    word: Option<&[u8]>,
    status: &Status,
) -> Result<Bytes, AllocError>
    ensures { IfOk result (λ line. line ≡ error_line_of (option_map (λ w. w.now) word.entry) status.now) }
{
    let mut text = Bytes::new(alloc);
    say_status(&mut text, word, status)?;
    let mut line = Bytes::from_slice(alloc, b"mh: ")?;
    line.extend(shown(alloc, text.as_slice())?.as_slice())?;
    line.extend(b"\n")?;
    Ok(line)
}
