// What the words of `rmm` say.
ghost use Rattle.std.specs.Prelude.{◌≡◌, IfOk, Ok, map};
ghost use Rattle.std.specs.Str.{chars};
ghost use Rattle.std.specs.String.{string_bytes};
ghost use Rattle.command_words.specs.Results.{IsSaid};
ghost use Rattle.folder_words.specs.RmmWords.{words_of, rmm_items, rmm_said};

use crate::table::{NOUNLINK, UNLINK, rmm_table};
use command_words::{
    Ended, all_words, folder_said, folder_word, last_choice, messages_or, read_items, wrong_at,
};
use mh_base::{FolderName, TextList, WordWhy};
use mh_profile::Entries;
use mh_words::ItemList;
use std::alloc::{AllocError, Global};

/// The words of `rmm`: the folder, where they name one; the messages' names; whether messages are unlinked,
/// or else kept as backups.
#[derive(Drop)]
pub struct RmmWords {
    pub folder: Option<FolderName>,
    pub specs: TextList,
    pub unlink: bool,
}

#[tactic(auto, using(command_words::proofs::Texts::chars_cur))]
fn words_said(
    alloc: Global,
    items: &ItemList,
    folder: Option<FolderName>,
) -> Result<RmmWords, AllocError>
    ensures { IfOk result (λ words. words ≡ words_of folder items.now) }
{
    Ok(RmmWords {
        folder,
        specs: messages_or(alloc, "cur", items)?,
        unlink: last_choice(UNLINK, NOUNLINK, items).unwrap_or(false),
    })
}

/// What the items of the words say.
fn items_said(alloc: Global, words: &TextList, items: &ItemList) -> Result<RmmWords, Ended>
    ensures { IsSaid (rmm_items words.now items.now) result }
{
    match folder_word(items) {
        Ok(word) => {
            let folder = folder_said(alloc, word)?;
            Ok(words_said(alloc, items, folder)?)
        }
        Err(place) => Err(wrong_at(alloc, words, place, WordWhy::Extra)?),
    }
}

/// What the words of `rmm` say, those of the profile first.
pub fn rmm_words(alloc: Global, profile: &Entries, words: &[String]) -> Result<RmmWords, Ended>
    ensures { IsSaid (rmm_said profile.now (map chars (map string_bytes words.now))) result }
{
    let table = rmm_table(alloc)?;
    let all = all_words(alloc, profile, b"rmm", words)?;
    let items = read_items(alloc, &table, &all)?;
    items_said(alloc, &all, &items)
}
