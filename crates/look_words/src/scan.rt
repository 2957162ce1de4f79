// What the words of `scan` say.
ghost use Rattle.std.specs.Prelude.{◌≡◌, IfOk, Ok, map};
ghost use Rattle.std.specs.Str.{chars};
ghost use Rattle.std.specs.String.{string_bytes};
ghost use Rattle.command_words.specs.Results.{IsSaid};
ghost use Rattle.look_words.specs.ScanWords.{words_of, scan_items, scan_said};

use crate::look::{LookWords, look, wrong_width};
use crate::table::{NOREVERSE, REVERSE, scan_table};
use command_words::{
    Ended, all_words, folder_said, folder_word, last_choice, messages_or, read_items, wrong_at,
    wrong_earliest,
};
use mh_base::{FolderName, TextList, WordWhy};
use mh_profile::Entries;
use mh_words::ItemList;
use std::alloc::{AllocError, Global};

/// The words of `scan`: the folder, where they name one; the messages' names; whether the last message
/// comes first; and what they say of lines.
#[derive(Drop)]
pub struct ScanWords {
    pub folder: Option<FolderName>,
    pub specs: TextList,
    pub reverse: bool,
    pub look: LookWords,
}

#[tactic(auto, using(command_words::proofs::Texts::chars_all))]
fn words_said(
    alloc: Global,
    items: &ItemList,
    folder: Option<FolderName>,
) -> Result<ScanWords, AllocError>
    ensures { IfOk result (λ words. words ≡ words_of folder items.now) }
{
    Ok(ScanWords {
        folder,
        specs: messages_or(alloc, "all", items)?,
        reverse: last_choice(REVERSE, NOREVERSE, items).unwrap_or(false),
        look: look(alloc, items)?,
    })
}

/// What the items of the words say.
fn items_said(alloc: Global, words: &TextList, items: &ItemList) -> Result<ScanWords, Ended>
    ensures { IsSaid (scan_items words.now items.now) result }
{
    match folder_word(items) {
        Ok(word) => {
            if let Some(place) = wrong_width(items) {
                return Err(wrong_at(alloc, words, place, WordWhy::BadValue)?);
            }
            let folder = folder_said(alloc, word)?;
            Ok(words_said(alloc, items, folder)?)
        }
        Err(second) => Err(wrong_earliest(alloc, words, wrong_width(items), second)?),
    }
}

/// What the words of `scan` say, those of the profile first.
pub fn scan_words(alloc: Global, profile: &Entries, words: &[String]) -> Result<ScanWords, Ended>
    ensures { IsSaid (scan_said profile.now (map chars (map string_bytes words.now))) result }
{
    let table = scan_table(alloc)?;
    let all = all_words(alloc, profile, b"scan", words)?;
    let items = read_items(alloc, &table, &all)?;
    items_said(alloc, &all, &items)
}
