// Steps of runs, by words.
use crate::places::{name, path, place};
use folder_files::{Place, Step};
use mh_base::{Bytes, Name};
use row_text::{number, word};
use std::alloc::Global;
use std::test::Fail;

/// A step on a directory.
#[derive(Clone, Copy)]
enum OnPlace {
    Lock,
    Unlock,
    Sync,
    List,
    Make,
}

/// A step on a name of a directory.
#[derive(Clone, Copy)]
enum OnName {
    Unlink,
    SyncFile,
}

/// A step from one name of a directory to another.
#[derive(Clone, Copy)]
enum OnNames {
    Link,
    Rename,
}

#[derive(Clone, Copy)]
enum Kind {
    OnPlace(OnPlace),
    OnName(OnName),
    OnNames(OnNames),
    Read,
    Create,
    ReadFile,
    ReadDrop,
    CutDrop,
}

fn on_place_kind(word: &[u8]) -> Option<OnPlace> {
    match word {
        b"lock" => Some(OnPlace::Lock),
        b"unlock" => Some(OnPlace::Unlock),
        b"sync" => Some(OnPlace::Sync),
        b"list" => Some(OnPlace::List),
        b"make" => Some(OnPlace::Make),
        _ => None,
    }
}

fn outside_kind(word: &[u8]) -> Option<Kind> {
    match word {
        b"read-file" => Some(Kind::ReadFile),
        b"read-drop" => Some(Kind::ReadDrop),
        b"cut-drop" => Some(Kind::CutDrop),
        _ => None,
    }
}

fn named_kind(word: &[u8]) -> Option<Kind> {
    match word {
        b"read" => Some(Kind::Read),
        b"create" => Some(Kind::Create),
        b"unlink" => Some(Kind::OnName(OnName::Unlink)),
        b"sync-file" => Some(Kind::OnName(OnName::SyncFile)),
        b"link" => Some(Kind::OnNames(OnNames::Link)),
        b"rename" => Some(Kind::OnNames(OnNames::Rename)),
        _ => outside_kind(word),
    }
}

fn kind_of(word: &[u8]) -> Option<Kind> {
    match on_place_kind(word) {
        Some(kind) => Some(Kind::OnPlace(kind)),
        None => named_kind(word),
    }
}

fn place_step(kind: OnPlace, at: Place) -> Step {
    match kind {
        OnPlace::Lock => Step::Lock(at),
        OnPlace::Unlock => Step::Unlock(at),
        OnPlace::Sync => Step::SyncFolder(at),
        OnPlace::List => Step::List(at),
        OnPlace::Make => Step::MakeFolder(at),
    }
}

fn name_step(kind: OnName, at: Place, name: Name) -> Step {
    match kind {
        OnName::Unlink => Step::Unlink(at, name),
        OnName::SyncFile => Step::SyncFile(at, name),
    }
}

fn names_step(kind: OnNames, at: Place, from: Name, to: Name) -> Step {
    match kind {
        OnNames::Link => Step::Link(at, from, to),
        OnNames::Rename => Step::Rename(at, from, to),
    }
}

/// The directory that is the second word of a step.
fn place_in(alloc: Global, mail: &Bytes, words: &[Bytes]) -> Result<Place, Fail> {
    place(alloc, mail, word(words, 1)?)
}

/// The name that is this word of a step.
fn name_in(alloc: Global, words: &[Bytes], index: usize) -> Result<Name, Fail> {
    name(alloc, word(words, index)?)
}

/// The number that is this word of a step; the greatest, where there is no such word.
fn most_in(words: &[Bytes], index: usize) -> Result<u64, Fail> {
    match words.get(index) {
        Some(word) => number(word.as_slice()),
        None => Ok(u64::MAX),
    }
}

fn on_place(alloc: Global, kind: OnPlace, mail: &Bytes, words: &[Bytes]) -> Result<Step, Fail> {
    let at = place_in(alloc, mail, words)?;
    Ok(place_step(kind, at))
}

fn on_name(alloc: Global, kind: OnName, mail: &Bytes, words: &[Bytes]) -> Result<Step, Fail> {
    let name = name_in(alloc, words, 2)?;
    let at = place_in(alloc, mail, words)?;
    Ok(name_step(kind, at, name))
}

fn on_names(alloc: Global, kind: OnNames, mail: &Bytes, words: &[Bytes]) -> Result<Step, Fail> {
    let from = name_in(alloc, words, 2)?;
    let to = name_in(alloc, words, 3)?;
    let at = place_in(alloc, mail, words)?;
    Ok(names_step(kind, at, from, to))
}

fn read(alloc: Global, mail: &Bytes, words: &[Bytes]) -> Result<Step, Fail> {
    let most = most_in(words, 3)?;
    let name = name_in(alloc, words, 2)?;
    let at = place_in(alloc, mail, words)?;
    Ok(Step::Read(at, name, most))
}

fn create(alloc: Global, mail: &Bytes, words: &[Bytes]) -> Result<Step, Fail> {
    let name = name_in(alloc, words, 2)?;
    let bytes = Bytes::from_slice(alloc, word(words, 3)?)?;
    let at = place_in(alloc, mail, words)?;
    Ok(Step::Create(at, name, bytes))
}

fn read_file(alloc: Global, words: &[Bytes]) -> Result<Step, Fail> {
    let most = most_in(words, 2)?;
    let path = path(alloc, word(words, 1)?)?;
    Ok(Step::ReadFile(path, most))
}

fn read_drop(alloc: Global, words: &[Bytes]) -> Result<Step, Fail> {
    let from = number(word(words, 2)?)?;
    let most = number(word(words, 3)?)?;
    let path = path(alloc, word(words, 1)?)?;
    Ok(Step::ReadDrop { path, from, most })
}

fn cut_drop(alloc: Global, words: &[Bytes]) -> Result<Step, Fail> {
    let length = number(word(words, 2)?)?;
    let path = path(alloc, word(words, 1)?)?;
    Ok(Step::CutDrop(path, length))
}

fn step_of(alloc: Global, kind: Kind, mail: &Bytes, words: &[Bytes]) -> Result<Step, Fail> {
    match kind {
        Kind::OnPlace(kind) => on_place(alloc, kind, mail, words),
        Kind::OnName(kind) => on_name(alloc, kind, mail, words),
        Kind::OnNames(kind) => on_names(alloc, kind, mail, words),
        Kind::Read => read(alloc, mail, words),
        Kind::Create => create(alloc, mail, words),
        Kind::ReadFile => read_file(alloc, words),
        Kind::ReadDrop => read_drop(alloc, words),
        Kind::CutDrop => cut_drop(alloc, words),
    }
}

/// `lock`, `unlock`, `sync`, `list` and `make` have a directory; `unlink` and `sync-file` a name in it, and `read` one
/// and how many bytes at most, or all; `link` and `rename` two; and `create` a name and its bytes. `read-file` has a
/// file outside and how many bytes at most; `read-drop` one, from where it is read and how many bytes at most; and
/// `cut-drop` one and a length.
pub fn step(alloc: Global, mail: &Bytes, words: &[Bytes]) -> Result<Step, Fail> {
    match kind_of(word(words, 0)?) {
        Some(kind) => step_of(alloc, kind, mail, words),
        None => Err("a step".into()),
    }
}
