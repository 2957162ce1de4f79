// Directories and files, by words.
use folder_files::{FilePath, Place};
use mh_base::{Bytes, Duplicate, FolderName, Name, Text};
use std::alloc::Global;
use std::test::Fail;

fn folder(alloc: Global, mail: &Bytes, word: &[u8]) -> Result<Place, Fail> {
    let text = Text::from_str(alloc, std::str::from_utf8(word).ok().ok_or("text")?)?;
    Ok(Place::Folder(mail.duplicate(alloc)?, FolderName::read(alloc, &text)?))
}

/// `~` is the home directory, `.` the current one, `Mail` the mail directory at this path, and `+name` a folder of it.
pub fn place(alloc: Global, mail: &Bytes, word: &[u8]) -> Result<Place, Fail> {
    match word {
        b"~" => Ok(Place::Home),
        b"." => Ok(Place::Work),
        b"Mail" => Ok(Place::Mail(mail.duplicate(alloc)?)),
        _ => folder(alloc, mail, word),
    }
}

pub fn name(alloc: Global, word: &[u8]) -> Result<Name, Fail> {
    Ok(Name::new(Bytes::from_slice(alloc, word)?).ok_or("a name")?)
}

/// A file outside the mailbox: `~/path` below the home directory, and any other below the current one.
pub fn path(alloc: Global, word: &[u8]) -> Result<FilePath, Fail> {
    let (home, text) = match word.strip_prefix(b"~/") {
        Some(text) => (true, text),
        None => (false, word),
    };
    Ok(FilePath {
        home,
        text: Bytes::from_slice(alloc, text)?,
    })
}
