// What the words of `folder` say.
ghost use Rattle.std.specs.Prelude.{◌≡◌, IfOk, Ok, map};
ghost use Rattle.std.specs.Str.{chars};
ghost use Rattle.std.specs.String.{string_bytes};
ghost use Rattle.command_words.specs.BadValues.{first_of, second_of};
ghost use Rattle.command_words.specs.MessagePlaces.{message_places};
ghost use Rattle.command_words.specs.Results.{IsOneFolder, IsSaid};
ghost use Rattle.folder_words.specs.TellWords.{folder_and_message, is_packed as is_packed_of, tell_items, second_from, tell_said, too_many as too_many_of, words_of};

use crate::table::{NOPACK, PACK, folder_table};
use command_words::{
    Ended, all_words, first_message, folder_beside, folder_said, last_choice, message_place,
    messages, read_items, wrong_at,
};
use mh_base::{FolderName, Text, TextList, WordWhy};
use mh_profile::Entries;
use mh_words::ItemList;
use std::alloc::{AllocError, Global};

/// The words of `folder`: the folder, where they name one; whether its messages are numbered anew; and the messages'
/// name, where there is one.
#[derive(Drop)]
pub struct FolderWords {
    pub folder: Option<FolderName>,
    pub pack: bool,
    pub specs: TextList,
}

fn is_packed(items: &ItemList) -> bool
    ensures { result ≡ is_packed_of items.now }
{
    last_choice(PACK, NOPACK, items).unwrap_or(false)
}

/// The place of the second message's name.
fn second_message(items: &ItemList) -> Option<u64>
    ensures { result ≡ second_of (message_places items.now) }
{
    let mut seen = false;
    for item in items.as_slice() {
        if let Some(place) = message_place(item) {
            if seen {
                return Some(place);
            }
            seen = true;
        }
    }
    None
}

/// The place of the first message's name that is too many.
fn too_many(items: &ItemList) -> Option<u64>
    ensures { result ≡ too_many_of (is_packed_of items.now) (message_places items.now) }
{
    if is_packed(items) {
        first_message(items)
    } else {
        second_message(items)
    }
}

/// The word of the one folder, or the place of the first word that is too many: a second folder, or a message's name.
fn folder_alone(items: &ItemList) -> Result<Option<&Text>, u64>
    ensures { IsOneFolder (folder_and_message items.now) result }
{
    folder_beside(items, too_many(items))
}

fn words_said(
    alloc: Global,
    items: &ItemList,
    folder: Option<FolderName>,
) -> Result<FolderWords, AllocError>
    ensures { IfOk result (λ words. words ≡ words_of folder items.now) }
{
    let specs = messages(alloc, items)?;
    Ok(FolderWords {
        folder,
        pack: is_packed(items),
        specs,
    })
}

/// What the items of the words say.
fn items_said(alloc: Global, words: &TextList, items: &ItemList) -> Result<FolderWords, Ended>
    ensures { IsSaid (tell_items words.now items.now) result }
{
    match folder_alone(items) {
        Ok(word) => {
            let folder = folder_said(alloc, word)?;
            Ok(words_said(alloc, items, folder)?)
        }
        Err(place) => Err(wrong_at(alloc, words, place, WordWhy::Extra)?),
    }
}

/// What the words of `folder` say, those of the profile first.
pub fn folder_words(
    alloc: Global,
    profile: &Entries,
    words: &[String],
) -> Result<FolderWords, Ended>
    ensures { IsSaid (tell_said profile.now (map chars (map string_bytes words.now))) result }
{
    let table = folder_table(alloc)?;
    let all = all_words(alloc, profile, b"folder", words)?;
    let items = read_items(alloc, &table, &all)?;
    items_said(alloc, &all, &items)
}
