// The words of `sortm`.
ghost use Rattle.std.specs.Prelude.{◌≡◌, IfOk, Ok, map, option_map};
ghost use Rattle.std.specs.Str.{chars};
ghost use Rattle.std.specs.String.{string_bytes};
ghost use Rattle.command_words.specs.FolderWords.{folder_named};
ghost use Rattle.command_words.specs.Results.{IsSaid};
ghost use Rattle.command_words.specs.Saying.{said_unless_refused};
ghost use Rattle.sort_words.specs.SortWords.{sort_items, sort_said, words_of};

use crate::keys::{key, wrong_name};
use crate::table::sort_table;
use command_words::{
    Ended, all_words, folder_said, folder_word, messages_or, read_items, wrong_at, wrong_earliest,
};
use mh_base::{FolderName, Text, TextList, WordWhy};
use mh_profile::Entries;
use mh_words::ItemList;
use sortm_plans::SortKey;
use std::alloc::{AllocError, Global};

/// The words of `sortm`: the folder, where they name one; the messages' names; and by what messages are put in order.
#[derive(Drop)]
pub struct SortWords {
    pub folder: Option<FolderName>,
    pub specs: TextList,
    pub key: SortKey,
}

#[tactic(auto, using(command_words::proofs::Texts::chars_all))]
fn words_said(
    alloc: Global,
    items: &ItemList,
    folder: Option<FolderName>,
) -> Result<SortWords, AllocError>
    ensures { IfOk result (λ words. words ≡ words_of folder items.now) }
{
    Ok(SortWords {
        folder,
        specs: messages_or(alloc, "all", items)?,
        key: key(alloc, items)?,
    })
}

/// What the items say, with the folder of this word.
fn word_said(alloc: Global, items: &ItemList, word: Option<&Text>) -> Result<SortWords, Ended>
    ensures { IsSaid
        (said_unless_refused (λ folder. Ok (words_of folder items.now))
        (folder_named (option_map (λ w. w.now) word.entry))) result }
{
    let folder = folder_said(alloc, word)?;
    Ok(words_said(alloc, items, folder)?)
}

/// What the items of the words say.
fn items_said(alloc: Global, all: &TextList, items: &ItemList) -> Result<SortWords, Ended>
    ensures { IsSaid (sort_items all.now items.now) result }
{
    let wrong = wrong_name(items);
    match folder_word(items) {
        Ok(word) => {
            if let Some(place) = wrong {
                return Err(wrong_at(alloc, all, place, WordWhy::BadValue)?);
            }
            word_said(alloc, items, word)
        }
        Err(second) => Err(wrong_earliest(alloc, all, wrong, second)?),
    }
}

/// What the words of `sortm` say, those of the profile first.
pub fn sort_words(alloc: Global, profile: &Entries, words: &[String]) -> Result<SortWords, Ended>
    ensures { IsSaid (sort_said profile.now (map chars (map string_bytes words.now))) result }
{
    let table = sort_table(alloc)?;
    let all = all_words(alloc, profile, b"sortm", words)?;
    let items = read_items(alloc, &table, &all)?;
    items_said(alloc, &all, &items)
}
