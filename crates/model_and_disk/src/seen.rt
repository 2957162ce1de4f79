// What stands under a name, seen in the model or on the disk.
use mh_base::Bytes;
use std::alloc::Global;
use std::test::Fail;

/// Of which files the bytes are seen, beside their lengths.
#[derive(Clone, Copy)]
pub enum Extent {
    /// Of those up to a thousand bytes.
    Short,
    All,
}

/// The length above which a file is a long one.
const LONG: u64 = 1_000;

/// A name in a directory, its file's length and bytes, and a number that tells its file from others; or the directory
/// itself, where it is there, with no name and no file.
#[derive(Drop)]
pub struct Seen {
    pub directory: &'static str,
    pub name: Bytes,
    pub length: u64,
    pub bytes: Bytes,
    pub file: Option<u64>,
}

impl Extent {
    /// Whether the bytes of a file of this length are seen.
    pub fn has(self, length: u64) -> bool {
        match self {
            Extent::Short => length <= LONG,
            Extent::All => true,
        }
    }
}

/// A directory that is there.
pub fn seen_directory(alloc: Global, directory: &'static str) -> Seen {
    Seen {
        directory,
        name: Bytes::new(alloc),
        length: 0,
        bytes: Bytes::new(alloc),
        file: None,
    }
}

/// Where the file was seen first.
fn first(all: &[Seen], file: Option<u64>) -> Option<usize> {
    all.iter().position(|seen| seen.file == file)
}

fn are_same(one: &Seen, other: &Seen) -> bool {
    one.directory == other.directory
        && one.length == other.length
        && one.name.same(&other.name)
        && one.bytes.same(&other.bytes)
}

/// Where both have the same, and the file is of the same earlier names.
fn agree_at(model: &[Seen], disk: &[Seen], place: usize) -> bool {
    match (model.get(place), disk.get(place)) {
        (Some(one), Some(other)) => {
            are_same(one, other) && first(model, one.file) == first(disk, other.file)
        }
        _ => false,
    }
}

/// The first place where not the same was seen.
pub fn differing(model: &[Seen], disk: &[Seen]) -> Option<usize> {
    let most = model.len().max(disk.len());
    (0..most).find(|place| !agree_at(model, disk, *place))
}

/// Adds the others behind these.
pub fn add_all(all: &mut Vec<Seen>, more: Vec<Seen>) -> Result<(), Fail> {
    for seen in more {
        all.push(seen)?;
    }
    Ok(())
}
