// Command lines, and what they say.
use mh_base::{Bytes, List, Text};
use mh_words::{Item, Kind, Switch, SwitchTable, WordFault, Words, read_words};
use row_text::{from, halves, show_line, texts, word};
use std::alloc::{AllocError, Global};
use std::test::Fail;

fn switch(alloc: Global, name: &str, kind: Kind) -> Result<Switch, AllocError> {
    Ok(Switch {
        name: Text::from_str(alloc, name)?,
        kind,
    })
}

const SWITCHES: [(&str, Kind); 8] = [
    ("form", Kind::Value),
    ("format", Kind::Value),
    ("width", Kind::Value),
    ("header", Kind::Flag),
    ("noheader", Kind::Flag),
    ("größe", Kind::Flag),
    ("header", Kind::Value),
    ("-odd", Kind::Flag),
];

fn many(alloc: Global, components: bool) -> Result<SwitchTable, AllocError> {
    let mut switches = List::new(alloc);
    for (name, kind) in SWITCHES {
        switches.push(switch(alloc, name, kind)?)?;
    }
    Ok(SwitchTable {
        switches,
        components,
    })
}

fn lone(alloc: Global) -> Result<SwitchTable, AllocError> {
    let mut switches = List::new(alloc);
    switches.push(switch(alloc, "header", Kind::Flag)?)?;
    Ok(SwitchTable {
        switches,
        components: false,
    })
}

fn table(alloc: Global, name: &[u8]) -> Result<SwitchTable, Fail> {
    match name {
        b"many" => Ok(many(alloc, false)?),
        b"components" => Ok(many(alloc, true)?),
        b"lone" => Ok(lone(alloc)?),
        _ => Err("a table".into()),
    }
}

fn item(alloc: Global, item: &Item) -> Result<String, AllocError> {
    match item {
        Item::Folder { text, place } => format!(in alloc; "folder {} @{place};", text.as_str()),
        Item::Message { text, place } => format!(in alloc; "message {} @{place};", text.as_str()),
        Item::Switch {
            index,
            value: None,
            place,
        } => format!(in alloc; "switch {index} @{place};"),
        Item::Switch {
            index,
            value: Some(value),
            place,
        } => format!(in alloc; "switch {index}={} @{place};", value.as_str()),
        Item::Component { name, value, place } => {
            format!(in alloc; "component {}={} @{place};", name.as_str(), value.as_str())
        }
    }
}

fn show_items(alloc: Global, words: &Words, told: &mut Bytes) -> Result<(), Fail> {
    for one in words.items.as_slice() {
        told.extend(item(alloc, one)?.as_bytes())?;
    }
    show_line(told, "")
}

fn show_fault(alloc: Global, fault: &WordFault, told: &mut Bytes) -> Result<(), Fail> {
    show_line(told, format!(in alloc; "{fault}")?.as_str())
}

/// A table's name, the profile's words, a slash and those of the line; or nothing: the fault where memory is wanted.
pub(crate) fn call(alloc: Global, words: &[Bytes], told: &mut Bytes) -> Result<(), Fail> {
    if words.len() == 1 {
        return show_fault(alloc, &WordFault::Memory, told);
    }
    let table = table(alloc, word(words, 1)?)?;
    let (profile, line) = halves(from(words, 2));
    let profile = texts(alloc, profile)?;
    let line = texts(alloc, line)?;
    match read_words(alloc, &table, &profile, &line) {
        Ok(words) => show_items(alloc, &words, told),
        Err(fault) => show_fault(alloc, &fault, told),
    }
}
