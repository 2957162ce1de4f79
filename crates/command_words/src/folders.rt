// The folder that words name.
ghost use Rattle.std.specs.Prelude.{option_map};
ghost use Rattle.command_words.specs.FolderWords.{folders as folders_of, one_folder, named_folder, IsFolderSeen, IsSaidFolder};
ghost use Rattle.command_words.specs.MessagePlaces.{alone};
ghost use Rattle.command_words.specs.Results.{IsNamed, IsOneFolder};

use folder_files::Refusal;
use mh_base::{Duplicate, FolderFault, FolderName, Text};
use mh_words::{Item, ItemList};
use std::alloc::Global;
use step_plans::CommandFault;

/// The folder that a word names, with its plus sign or without.
pub fn read_folder(alloc: Global, word: &Text) -> Result<FolderName, CommandFault>
    ensures { IsNamed (named_folder word.now) result }
{
    match FolderName::read(alloc, word) {
        Ok(name) => Ok(name),
        Err(FolderFault::BadFolder) => Err(CommandFault::Refused(Refusal::BadFolder(word.duplicate(
            alloc,
        )?))),
        Err(FolderFault::Memory) => Err(CommandFault::Memory),
    }
}

/// The folder's word so far, with one item more; or the place of a second folder.
fn folder_seen<'a>(found: Option<&'a Text>, item: &'a Item) -> Result<Option<&'a Text>, u64>
    ensures { IsFolderSeen (option_map (λ w. w.now) found.entry) item.now result }
{
    match item {
        Item::Folder { text, place } => match found {
            None => Ok(Some(text)),
            Some(_) => Err(*place),
        },
        _ => Ok(found),
    }
}

/// The word of the one folder, or the place of a second.
pub fn folder_word(items: &ItemList) -> Result<Option<&Text>, u64>
    ensures { IsOneFolder (one_folder (folders_of items.now)) result }
{
    let mut found = None;
    for item in items.as_slice() {
        found = folder_seen(found, item)?;
    }
    Ok(found)
}

/// The same beside messages' names of which this place is one too many: the earliest word that is.
pub fn folder_beside(items: &ItemList, extra: Option<u64>) -> Result<Option<&Text>, u64>
    ensures { IsOneFolder (alone (one_folder (folders_of items.now)) extra) result }
{
    match folder_word(items) {
        Ok(word) => match extra {
            Some(place) => Err(place),
            None => Ok(word),
        },
        Err(second) => match extra {
            Some(place) => Err(second.min(place)),
            None => Err(second),
        },
    }
}

/// The folder of this word, where there is one.
pub fn folder_said(alloc: Global, word: Option<&Text>) -> Result<Option<FolderName>, CommandFault>
    ensures { IsSaidFolder (option_map (λ w. w.now) word.entry) result }
{
    match word {
        Some(word) => Ok(Some(read_folder(alloc, word)?)),
        None => Ok(None),
    }
}
