// One call of `mh`. What calls it is generic over its files, so that its contract is looked at once.
use folder_files::{Files, Refusal};
use memory_inputs::MemSource;
use mh_base::{Bytes, MemSink, NumberList, PlainSink, Text};
use mh_tools::{Setting, Status, mh};
use row_text::{show_quoted, signed, text, word};
use std::alloc::Global;
use std::test::Fail;

/// The moment of all calls, in seconds from 1970-01-01 00:00:00 UTC: 2026-06-02 10:00:00 UTC.
const MOMENT: i64 = 1_780_394_400;

/// How a call ended, and at which of its words where one was wrong.
#[derive(Clone, Copy)]
struct Ended {
    exit: u8,
    word: Option<u64>,
}

/// The place of the wrong word, counted from 0 through the profile's and the command's.
fn wrong_word(status: &Status) -> Option<u64> {
    match status {
        Status::Refused(Refusal::BadSwitch { place, .. }) => Some(*place),
        _ => None,
    }
}

fn end_of(status: &Status) -> Ended {
    let exit = status.exit();
    let word = wrong_word(status);
    Ended { exit, word }
}

fn strings(alloc: Global, words: &[Bytes]) -> Result<Vec<String>, Fail> {
    let mut strings = Vec::new(alloc);
    for word in words {
        strings.push(String::from_str(alloc, text(word.as_slice())?)?)?;
    }
    Ok(strings)
}

fn setting(alloc: Global, run: u128) -> Result<Setting, Fail> {
    let user = Text::from_str(alloc, "bob")?;
    Ok(Setting::new(run, MOMENT, 0, user).ok_or("a setting")?)
}

fn show_ended(alloc: Global, told: &mut Bytes, ended: Ended) -> Result<(), Fail> {
    told.extend(format!(in alloc; "{}", ended.exit)?.as_bytes())?;
    if let Some(word) = ended.word {
        told.extend(format!(in alloc; " at word {word}")?.as_bytes())?;
    }
    told.extend(b"\n")?;
    Ok(())
}

fn show_written(told: &mut Bytes, label: &[u8], bytes: &[u8]) -> Result<(), Fail> {
    if bytes.is_empty() {
        return Ok(());
    }
    told.extend(label)?;
    show_quoted(told, bytes)?;
    told.extend(b"\n")?;
    Ok(())
}

fn show_called(
    alloc: Global,
    told: &mut Bytes,
    ended: Ended,
    out: &[u8],
    err: &[u8],
) -> Result<(), Fail> {
    show_ended(alloc, told, ended)?;
    show_written(told, b"out ", out)?;
    show_written(told, b"err ", err)
}

/// What a call hears, and which of its streams' pieces fail.
#[derive(Drop)]
pub(crate) struct Streams {
    pub(crate) input: Bytes,
    /// The readings of the input that fail, counted from 1.
    pub(crate) unheard: NumberList,
    /// The pieces of the output that fail, counted from 1.
    pub(crate) unsaid: NumberList,
}

impl Streams {
    /// An empty input, and nothing fails.
    pub(crate) fn new(alloc: Global) -> Streams {
        Streams {
            input: Bytes::new(alloc),
            unheard: NumberList::new(alloc),
            unsaid: NumberList::new(alloc),
        }
    }
}

fn call_by<F: Files>(
    alloc: Global,
    files: &mut F,
    words: &Vec<String>,
    setting: &Setting,
    streams: Streams,
    told: &mut Bytes,
) -> Result<(), Fail> {
    let mut input = MemSource::new(streams.input, streams.unheard);
    let mut out = MemSink::new(alloc, streams.unsaid);
    let mut err = PlainSink::new(alloc);
    let status = mh(alloc, words, setting, files, &mut input, &mut out, &mut err);
    show_called(alloc, told, end_of(&status), out.bytes(), err.bytes())
}

/// Calls it with these words and streams, by this run; and tells how it ended and what it wrote.
pub(crate) fn call<F: Files>(
    alloc: Global,
    files: &mut F,
    run: u128,
    words: &[Bytes],
    streams: Streams,
    told: &mut Bytes,
) -> Result<(), Fail> {
    let strings = strings(alloc, words)?;
    let setting = setting(alloc, run)?;
    call_by(alloc, files, &strings, &setting, streams, told)
}

fn offset(word: &[u8]) -> Result<i32, Fail> {
    Ok(i32::try_from(signed(word)?).ok().ok_or("an offset")?)
}

/// Whether there is a setting of this moment and offset.
pub(crate) fn show_setting(alloc: Global, words: &[Bytes], told: &mut Bytes) -> Result<(), Fail> {
    let moment = signed(word(words, 1)?)?;
    let offset = offset(word(words, 2)?)?;
    let state: &[u8] = match Setting::new(1, moment, offset, Text::new(alloc)) {
        Some(_) => b"a setting\n",
        None => b"no setting\n",
    };
    Ok(told.extend(state)?)
}
