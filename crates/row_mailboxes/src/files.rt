// Files of a directory that is given.
use crate::places::name;
use folder_files::{ChangeList, Directory, File, FileList, Place, Slot, SlotList};
use mh_base::{Bytes, Duplicate, Name};
use row_text::number;
use std::alloc::Global;
use std::test::Fail;

/// To what a name leads.
#[derive(Drop)]
enum Led {
    /// A file of its own with these bytes.
    Own(Bytes),
    /// The file to which this other name of the directory leads.
    Same(Bytes),
}

#[derive(Drop)]
pub struct GivenFile {
    name: Name,
    led: Led,
}

/// The bytes of a word: `zeros:` and a number are so many zero bytes.
pub fn text_by(alloc: Global, word: &[u8]) -> Result<Bytes, Fail> {
    match word.strip_prefix(b"zeros:") {
        Some(count) => {
            let count = usize::try_from(number(count)?).ok().ok_or("a count")?;
            Ok(Bytes::from_vec(vec![in alloc; 0u8; count]?))
        }
        None => Ok(Bytes::from_slice(alloc, word)?),
    }
}

/// What a word says: `same:` and another name are that name's file.
fn led_by(alloc: Global, word: &[u8]) -> Result<Led, Fail> {
    match word.strip_prefix(b"same:") {
        Some(name) => Ok(Led::Same(Bytes::from_slice(alloc, name)?)),
        None => Ok(Led::Own(text_by(alloc, word)?)),
    }
}

impl GivenFile {
    /// By its name and what it has.
    pub fn new(alloc: Global, word: &[u8], text: &[u8]) -> Result<GivenFile, Fail> {
        let name = name(alloc, word)?;
        let led = led_by(alloc, text)?;
        Ok(GivenFile { name, led })
    }
}

/// The file to which this name leads.
fn file_of(slots: &SlotList, name: &[u8]) -> Result<u64, Fail> {
    for slot in slots.as_slice() {
        if slot.name.bytes() == name {
            return Ok(slot.file);
        }
    }
    Err("a name that stands before".into())
}

/// A new file with these bytes.
fn new_file(alloc: Global, files: &mut FileList, bytes: &Bytes) -> Result<u64, Fail> {
    let id = files.len() as u64;
    let bytes = bytes.duplicate(alloc)?;
    let safe = true;
    files.push(File { id, bytes, safe })?;
    Ok(id)
}

fn file_led(alloc: Global, led: &Led, slots: &SlotList, files: &mut FileList) -> Result<u64, Fail> {
    match led {
        Led::Own(bytes) => new_file(alloc, files, bytes),
        Led::Same(name) => file_of(slots, name.as_slice()),
    }
}

/// The names of a directory with its files, which are numbered on.
fn slots(alloc: Global, given: &[GivenFile], files: &mut FileList) -> Result<SlotList, Fail> {
    let mut slots = SlotList::new(alloc);
    for one in given {
        let file = file_led(alloc, &one.led, &slots, files)?;
        let name = one.name.duplicate(alloc)?;
        slots.push(Slot { name, file })?;
    }
    Ok(slots)
}

/// A directory with its files, which are numbered on.
pub fn directory(
    alloc: Global,
    place: &Place,
    given: &[GivenFile],
    files: &mut FileList,
) -> Result<Directory, Fail> {
    let safe = slots(alloc, given, files)?;
    Ok(Directory {
        place: place.duplicate(alloc)?,
        safe,
        pending: ChangeList::new(alloc),
    })
}
