// The words of `mhstore`.
ghost use Rattle.std.specs.Prelude.{◌≡◌, IfOk, Ok, map, option_map};
ghost use Rattle.std.specs.Str.{chars};
ghost use Rattle.std.specs.String.{string_bytes};
ghost use Rattle.command_words.specs.FolderWords.{folder_named};
ghost use Rattle.command_words.specs.Results.{IsSaid};
ghost use Rattle.command_words.specs.Saying.{said_unless_refused};
ghost use Rattle.store_words.specs.StoreWords.{store_items, store_said, words_of};

use crate::parts::parts;
use crate::table::store_table;
use crate::values::{clobbers, wrong_value};
use command_words::{
    Ended, all_words, folder_said, folder_word, messages_or, read_items, wrong_at, wrong_earliest,
};
use mh_base::{FolderName, List, Text, TextList, WordWhy};
use mh_profile::Entries;
use mh_words::ItemList;
use mime_tree::PartPath;
use std::alloc::{AllocError, Global};

/// The words of `mhstore`: the folder, where they name one; the messages' names; the parts that are wanted, where they
/// name some; and whether files that stand are replaced.
#[derive(Drop)]
pub struct StoreWords {
    pub folder: Option<FolderName>,
    pub specs: TextList,
    pub parts: List<PartPath>,
    pub clobber: bool,
}

#[tactic(auto, using(command_words::proofs::Texts::chars_cur))]
fn words_said(
    alloc: Global,
    items: &ItemList,
    folder: Option<FolderName>,
) -> Result<StoreWords, AllocError>
    ensures { IfOk result (λ words. words ≡ words_of folder items.now) }
{
    Ok(StoreWords {
        folder,
        specs: messages_or(alloc, "cur", items)?,
        parts: parts(alloc, items)?,
        clobber: clobbers(alloc, items)?,
    })
}

/// What the items say, with the folder of this word.
fn word_said(alloc: Global, items: &ItemList, word: Option<&Text>) -> Result<StoreWords, Ended>
    ensures { IsSaid
        (said_unless_refused (λ folder. Ok (words_of folder items.now))
        (folder_named (option_map (λ w. w.now) word.entry))) result }
{
    let folder = folder_said(alloc, word)?;
    Ok(words_said(alloc, items, folder)?)
}

/// What the items of the words say.
fn items_said(alloc: Global, all: &TextList, items: &ItemList) -> Result<StoreWords, Ended>
    ensures { IsSaid (store_items all.now items.now) result }
{
    let wrong = wrong_value(alloc, items)?;
    match folder_word(items) {
        Ok(word) => {
            if let Some(place) = wrong {
                return Err(wrong_at(alloc, all, place, WordWhy::BadValue)?);
            }
            word_said(alloc, items, word)
        }
        Err(second) => Err(wrong_earliest(alloc, all, wrong, second)?),
    }
}

/// What the words of `mhstore` say, those of the profile first.
pub fn store_words(alloc: Global, profile: &Entries, words: &[String]) -> Result<StoreWords, Ended>
    ensures { IsSaid (store_said profile.now (map chars (map string_bytes words.now))) result }
{
    let table = store_table(alloc)?;
    let all = all_words(alloc, profile, b"mhstore", words)?;
    let items = read_items(alloc, &table, &all)?;
    items_said(alloc, &all, &items)
}
