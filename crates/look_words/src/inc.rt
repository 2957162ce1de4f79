// What the words of `inc` say.
ghost use Rattle.std.specs.Prelude.{◌≡◌, IfOk, Ok, map};
ghost use Rattle.std.specs.Str.{chars};
ghost use Rattle.std.specs.String.{string_bytes};
ghost use Rattle.command_words.specs.Results.{IsOneFolder, IsSaid};
ghost use Rattle.look_words.specs.IncWords.{words_of, folder_alone as folder_alone_of, inc_items, inc_said};

use crate::look::{LookWords, look, wrong_width};
use crate::table::{
    CHANGECUR, FILE, NOCHANGECUR, NOSILENT, NOTRUNCATE, SILENT, TRUNCATE, inc_table,
};
use command_words::{
    Ended, all_words, first_message, folder_beside, folder_said, last_choice, last_word,
    read_items, values, wrong_at, wrong_earliest,
};
use mh_base::{FolderName, Text, TextList, WordWhy};
use mh_profile::Entries;
use mh_words::ItemList;
use std::alloc::{AllocError, Global};

/// The words of `inc`: the folder and the drop, where they name them; whether the drop is cut, whether nothing is
/// written, and whether the first new message becomes the current one; and what they say of lines.
#[derive(Drop)]
pub struct IncWords {
    pub folder: Option<FolderName>,
    pub file: Option<Text>,
    pub truncate: bool,
    pub silent: bool,
    pub change_cur: bool,
    pub look: LookWords,
}

/// The word of the one folder, or the place of the first word that is too many: a second folder, or a message's name.
fn folder_alone(items: &ItemList) -> Result<Option<&Text>, u64>
    ensures { IsOneFolder (folder_alone_of items.now) result }
{
    folder_beside(items, first_message(items))
}

fn words_said(
    alloc: Global,
    items: &ItemList,
    folder: Option<FolderName>,
) -> Result<IncWords, AllocError>
    ensures { IfOk result (λ words. words ≡ words_of folder items.now) }
{
    let file = last_word(alloc, &values(alloc, FILE, items)?)?;
    let truncate = last_choice(TRUNCATE, NOTRUNCATE, items).unwrap_or(file.is_none());
    Ok(IncWords {
        folder,
        file,
        truncate,
        silent: last_choice(SILENT, NOSILENT, items).unwrap_or(false),
        change_cur: last_choice(CHANGECUR, NOCHANGECUR, items).unwrap_or(true),
        look: look(alloc, items)?,
    })
}

/// What the items of the words say.
fn items_said(alloc: Global, words: &TextList, items: &ItemList) -> Result<IncWords, Ended>
    ensures { IsSaid (inc_items words.now items.now) result }
{
    match folder_alone(items) {
        Ok(word) => {
            if let Some(place) = wrong_width(items) {
                return Err(wrong_at(alloc, words, place, WordWhy::BadValue)?);
            }
            let folder = folder_said(alloc, word)?;
            Ok(words_said(alloc, items, folder)?)
        }
        Err(second) => Err(wrong_earliest(alloc, words, wrong_width(items), second)?),
    }
}

/// What the words of `inc` say, those of the profile first.
pub fn inc_words(alloc: Global, profile: &Entries, words: &[String]) -> Result<IncWords, Ended>
    ensures { IsSaid (inc_said profile.now (map chars (map string_bytes words.now))) result }
{
    let table = inc_table(alloc)?;
    let all = all_words(alloc, profile, b"inc", words)?;
    let items = read_items(alloc, &table, &all)?;
    items_said(alloc, &all, &items)
}
