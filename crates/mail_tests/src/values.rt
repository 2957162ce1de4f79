// Names, numbers, text, lists and streams, by their written rules.
use mh_base::{
    Bytes, Duplicate, Entry, FolderFault, FolderName, MemSink, MsgNum, Name, NumberList, PlainSink,
    PlainSource, Sink, SinkFault, Source, StdSink, StdSource, Text, TextList, entry_name, entry_of,
};
use std::alloc::{AllocError, Global};

/// A kind, with its run, and its number or count.
type Kind = (&'static str, u128, u64);

fn kind(entry: &Entry) -> Kind {
    match entry {
        Entry::Number(number) => ("number", 0, u64::from(number.get())),
        Entry::Backup(number) => ("backup", 0, u64::from(number.get())),
        Entry::Held(run, number) => ("held", *run, u64::from(number.get())),
        Entry::Temp(run, count) => ("temp", *run, *count),
        Entry::Sequences => ("sequences", 0, 0),
        Entry::LockFile => ("lock", 0, 0),
        Entry::Other => ("other", 0, 0),
    }
}

/// The name of a kind that has one.
fn name_again(alloc: Global, entry: &Entry) -> Option<Name> {
    match entry {
        Entry::Other => None,
        _ => entry_name(alloc, entry).ok(),
    }
}

fn is_named(alloc: Global, entry: &Entry, name: &str) -> bool {
    match name_again(alloc, entry) {
        Some(again) => again.bytes() == name.as_bytes(),
        None => matches!(entry, Entry::Other),
    }
}

fn is_kind(alloc: Global, name: &str, wanted: &Kind) -> bool {
    let entry = entry_of(name.as_bytes());
    kind(&entry) == *wanted && is_named(alloc, &entry, name)
}

const KINDS: &[(&str, Kind)] = &[
    ("1", ("number", 0, 1)),
    ("999999", ("number", 0, 999_999)),
    (",12", ("backup", 0, 12)),
    (".mh_sequences", ("sequences", 0, 0)),
    (".mh_lock", ("lock", 0, 0)),
    (
        ".mh_held_000000000000000000000000000000ff_7",
        ("held", 255, 7),
    ),
    (
        ".mh_temp_0000000000000000000000000000000a_0",
        ("temp", 10, 0),
    ),
    ("007", ("other", 0, 0)),
    ("0", ("other", 0, 0)),
    ("1000000", ("other", 0, 0)),
    (",", ("other", 0, 0)),
    (",07", ("other", 0, 0)),
    ("4x", ("other", 0, 0)),
    (".mh_held_ff_7", ("other", 0, 0)),
    (
        ".mh_held_000000000000000000000000000000FF_7",
        ("other", 0, 0),
    ),
    (
        ".mh_temp_0000000000000000000000000000000a_00",
        ("other", 0, 0),
    ),
    (".mh_locks", ("other", 0, 0)),
];

/// The first name that isn't of its kind.
fn wrong_kind(alloc: Global) -> Option<&'static str> {
    for (name, kind) in KINDS {
        if !is_kind(alloc, name, kind) {
            return Some(name);
        }
    }
    None
}

#[test]
fn kinds_of_names(rt: HostRuntime) {
    assert_eq!(rt; wrong_kind(rt.alloc()), None);
}

/// Whether the number is read so, or not at all.
fn is_number(text: &[u8], wanted: Option<u32>) -> bool {
    MsgNum::read(text).map(MsgNum::get) == wanted
}

#[test]
fn numbers_of_messages(rt: HostRuntime) {
    assert!(rt; MsgNum::new(0).is_none());
    assert!(rt; MsgNum::new(1_000_000).is_none());
    assert!(rt; is_number(b"120", Some(120)));
    assert!(rt; is_number(b"012", None));
}

fn is_no_name(alloc: Global, bytes: &[u8]) -> Result<bool, AllocError> {
    Ok(Name::new(Bytes::from_slice(alloc, bytes)?).is_none())
}

fn is_copied(alloc: Global, name: &Name) -> Result<bool, AllocError> {
    Ok(name.same(&name.duplicate(alloc)?))
}

fn is_name(alloc: Global, bytes: &[u8]) -> Result<bool, AllocError> {
    match Name::new(Bytes::from_slice(alloc, bytes)?) {
        Some(name) => is_copied(alloc, &name),
        None => Ok(false),
    }
}

#[test]
fn names(rt: HostRuntime) {
    let alloc = rt.alloc();
    assert!(rt; is_no_name(alloc, b"") == Ok(true));
    assert!(rt; is_no_name(alloc, b"a/b") == Ok(true));
    assert!(rt; is_no_name(alloc, b"a\0b") == Ok(true));
    assert!(rt; is_no_name(alloc, &[b'x'; 256]) == Ok(true));
    assert!(rt; is_name(alloc, b"caf\xE9") == Ok(true));
}

fn is_folder(alloc: Global, name: &FolderName, wanted: &str) -> Result<bool, AllocError> {
    let copy = name.duplicate(alloc)?;
    Ok(name.text().as_str() == wanted && name.same(&copy))
}

/// Whether the word is a folder of this name, or is refused where there is none.
fn names_folder(alloc: Global, word: &str, wanted: Option<&str>) -> Result<bool, AllocError> {
    let word = Text::from_str(alloc, word)?;
    match FolderName::read(alloc, &word) {
        Ok(name) => is_folder(alloc, &name, wanted.unwrap_or("")),
        Err(FolderFault::BadFolder) => Ok(wanted.is_none()),
        Err(FolderFault::Memory) => Err(AllocError),
    }
}

const FOLDERS: &[(&str, Option<&str>)] = &[
    ("+inbox", Some("inbox")),
    ("a/b", Some("a/b")),
    ("+\u{E9}t\u{E9}", Some("\u{E9}t\u{E9}")),
    ("+", None),
    ("", None),
    ("/a", None),
    ("a/", None),
    ("a//b", None),
    ("a/../b", None),
    (".", None),
    ("++a", None),
    (" a", None),
    ("a ", None),
    ("a\tb", None),
    (",3", None),
    ("a/.mh_lock", None),
    ("context", None),
    ("context/a", None),
];

/// The first word that isn't read so.
fn wrong_folder(alloc: Global) -> Option<&'static str> {
    for (word, name) in FOLDERS {
        if names_folder(alloc, word, *name) != Ok(true) {
            return Some(word);
        }
    }
    None
}

#[test]
fn folder_names(rt: HostRuntime) {
    assert_eq!(rt; wrong_folder(rt.alloc()), None);
}

fn is_text(alloc: Global) -> Result<bool, AllocError> {
    let mut text = Text::new(alloc);
    text.push('\u{E9}')?;
    Ok(text.same(&Text::from_str(alloc, "\u{E9}")?))
}

fn is_text_copied(alloc: Global) -> Result<bool, AllocError> {
    let text = Text::from_str(alloc, "\u{E9}")?;
    Ok(text.same(&text.duplicate(alloc)?))
}

fn extended(alloc: Global) -> Result<Bytes, AllocError> {
    let mut bytes = Bytes::from_vec(Bytes::from_slice(alloc, b"ab")?.into_vec());
    bytes.extend(b"c")?;
    Ok(bytes)
}

fn are_bytes(alloc: Global) -> Result<bool, AllocError> {
    let bytes = extended(alloc)?;
    Ok(bytes.len() == 3 && bytes.as_slice() == b"abc".as_slice())
}

fn are_bytes_copied(alloc: Global) -> Result<bool, AllocError> {
    let bytes = extended(alloc)?;
    Ok(bytes.same(&bytes.duplicate(alloc)?))
}

fn changed(alloc: Global) -> Result<NumberList, AllocError> {
    let mut numbers = NumberList::new(alloc);
    numbers.push(4)?;
    numbers.push(9)?;
    *numbers.get_mut(0) = 5;
    numbers.pop();
    Ok(numbers)
}

fn are_numbers(alloc: Global) -> Result<bool, AllocError> {
    let numbers = changed(alloc)?;
    let is_one = numbers.len() == 1;
    Ok(is_one && NumberList::from_vec(numbers.into_vec()).as_slice() == [5u64].as_slice())
}

fn one_word(alloc: Global) -> Result<TextList, AllocError> {
    let mut words = TextList::new(alloc);
    words.push(Text::from_str(alloc, "a")?)?;
    Ok(words)
}

fn are_words_copied(alloc: Global) -> Result<bool, AllocError> {
    let copy = one_word(alloc)?.duplicate(alloc)?;
    Ok(copy.get(0).is_some_and(|word| word.as_str() == "a") && copy.get(1).is_none())
}

#[test]
fn texts_and_lists(rt: HostRuntime) {
    let alloc = rt.alloc();
    assert!(rt; is_text(alloc) == Ok(true));
    assert!(rt; is_text_copied(alloc) == Ok(true));
    assert!(rt; are_bytes(alloc) == Ok(true));
    assert!(rt; are_bytes_copied(alloc) == Ok(true));
    assert!(rt; NumberList::new(alloc).is_empty());
    assert!(rt; are_numbers(alloc) == Ok(true));
    assert!(rt; are_words_copied(alloc) == Ok(true));
}

/// Whether at most two bytes are read, and they are these.
fn gives<S: Source>(alloc: Global, source: &mut S, piece: &[u8]) -> bool {
    match source.read(alloc, 2) {
        Ok(bytes) => bytes.as_slice() == piece,
        Err(_) => false,
    }
}

/// Whether `abc` is read in pieces of two bytes.
fn gives_all<S: Source>(alloc: Global, source: &mut S) -> bool {
    gives(alloc, source, b"ab") && gives(alloc, source, b"c") && gives(alloc, source, b"")
}

fn plain_source_gives(alloc: Global) -> Result<bool, AllocError> {
    let mut source = PlainSource::new(Bytes::from_slice(alloc, b"abc")?);
    Ok(gives_all(alloc, &mut source))
}

fn system_source_gives(alloc: Global) -> bool {
    let mut source = StdSource::new(b"abc".as_slice());
    gives_all(alloc, &mut source)
}

fn plain_sink_takes(alloc: Global) -> bool {
    let mut out = PlainSink::new(alloc);
    out.put(b"ab").is_ok() && out.put(b"c").is_ok() && out.bytes() == b"abc".as_slice()
}

fn fails<S: Sink>(out: &mut S, piece: &[u8]) -> bool {
    matches!(out.put(piece), Err(SinkFault::Failed))
}

/// A sink of which the second piece fails.
fn failing_sink(alloc: Global) -> Result<MemSink, AllocError> {
    let mut failing = NumberList::new(alloc);
    failing.push(2)?;
    Ok(MemSink::new(alloc, failing))
}

fn failing_sink_takes(alloc: Global) -> Result<bool, AllocError> {
    let mut out = failing_sink(alloc)?;
    let is_put = out.put(b"ab").is_ok() && fails(&mut out, b"cd") && out.put(b"ef").is_ok();
    Ok(is_put && out.bytes() == b"abef".as_slice())
}

fn system_sink_takes(alloc: Global) -> bool {
    StdSink::new(Vec::new(alloc)).put(b"ab").is_ok()
}

#[test]
fn streams(rt: HostRuntime) {
    let alloc = rt.alloc();
    assert!(rt; plain_source_gives(alloc) == Ok(true));
    assert!(rt; system_source_gives(alloc));
    assert!(rt; plain_sink_takes(alloc));
    assert!(rt; failing_sink_takes(alloc) == Ok(true));
    assert!(rt; system_sink_takes(alloc));
}
