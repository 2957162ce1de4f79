// The words of `anno`.
ghost use Rattle.std.specs.Prelude.{◌≡◌, IfOk, IfSome, Ok, Some, map, option_map};
ghost use Rattle.std.specs.Str.{chars, encode_utf8_all};
ghost use Rattle.std.specs.String.{string_bytes};
ghost use Rattle.mail_dates.specs.Clocks.{IsMailDate, IsSetting};
ghost use Rattle.annotation_lines.specs.Lines.{annotation_lines as annotation_lines_of};
ghost use Rattle.command_words.specs.Results.{IsSaid};
ghost use Rattle.anno_words.specs.AnnoWords.{
  anno_said,
  component_of,
  date_of,
  is_dated as is_dated_of,
  anno_items,
  lines_of,
  named_said,
  word_said as word_said_of,
  words_of,
};

use crate::table::{COMPONENT, DATE, NODATE, TEXT, anno_table};
use crate::wrong_values::wrong_value;
use annotation_lines::{annotation_lines, moment_date};
use command_words::{
    Ended, all_words, folder_said, folder_word, last_choice, last_word, messages_or, read_items,
    values, wrong_at, wrong_earliest,
};
use mail_dates::MailDate;
use mh_base::{Bytes, FolderName, Text, TextList, WordWhy};
use mh_profile::Entries;
use mh_words::ItemList;
use std::alloc::{AllocError, Global};

/// The words of `anno`: the folder, where they name one; the messages' names; and the lines that the messages get in
/// front of their bytes.
#[derive(Drop)]
pub struct AnnoWords {
    pub folder: Option<FolderName>,
    pub specs: TextList,
    pub lines: Bytes,
}

/// Whether the lines have a date.
fn is_dated(items: &ItemList) -> bool
    ensures { result ≡ is_dated_of items.now }
{
    last_choice(DATE, NODATE, items).unwrap_or(true)
}

/// The date of this moment, by a clock that is so many minutes ahead of UTC, where the lines have one.
fn date(items: &ItemList, moment: i64, offset_minutes: i32) -> Option<MailDate>
    requires { IsSetting moment offset_minutes }
    ensures value { result ≡ date_of moment offset_minutes items.now }
    ensures valid { IfSome result IsMailDate }
{
    if is_dated(items) {
        Some(moment_date(moment, offset_minutes))
    } else {
        None
    }
}

/// The name of the lines' field, where there is something to say under it.
fn component(alloc: Global, items: &ItemList) -> Result<Option<Text>, AllocError>
    ensures { IfOk result (λ name. name ≡ component_of items.now) }
{
    let texts = values(alloc, TEXT, items)?;
    if texts.len() == 0 && !is_dated(items) {
        return Ok(None);
    }
    last_word(alloc, &values(alloc, COMPONENT, items)?)
}

/// The lines under this name.
fn lines(
    alloc: Global,
    items: &ItemList,
    name: &Text,
    moment: i64,
    offset_minutes: i32,
) -> Result<Bytes, AllocError>
    requires { IsSetting moment offset_minutes }
    ensures { IfOk result (λ lines. lines ≡ lines_of moment offset_minutes items.now name.now) }
{
    let date = date(items, moment, offset_minutes);
    let component = name.as_str().as_bytes();
    match last_word(alloc, &values(alloc, TEXT, items)?)? {
        Some(text) => annotation_lines(alloc, component, date, Some(text.as_str().as_bytes())),
        None => annotation_lines(alloc, component, date, None),
    }
}

#[tactic(auto, using(command_words::proofs::Texts::chars_cur))]
fn words_said(
    alloc: Global,
    items: &ItemList,
    folder: Option<FolderName>,
    lines: Bytes,
) -> Result<AnnoWords, AllocError>
    ensures { IfOk result (λ words. words ≡ words_of folder lines items.now) }
{
    Ok(AnnoWords {
        folder,
        specs: messages_or(alloc, "cur", items)?,
        lines,
    })
}

/// What the items say under this name, with the folder of this word.
fn named(
    alloc: Global,
    items: &ItemList,
    word: Option<&Text>,
    name: &Text,
    moment: i64,
    offset_minutes: i32,
) -> Result<AnnoWords, Ended>
    requires { IsSetting moment offset_minutes }
    ensures { IsSaid (named_said moment offset_minutes items.now name.now (option_map (λ w. w.now) word.entry)) result }
{
    let folder = folder_said(alloc, word)?;
    let lines = lines(alloc, items, name, moment, offset_minutes)?;
    Ok(words_said(alloc, items, folder, lines)?)
}

/// What the items say beside the folder's word.
fn word_said(
    alloc: Global,
    all: &TextList,
    items: &ItemList,
    word: Option<&Text>,
    moment: i64,
    offset_minutes: i32,
) -> Result<AnnoWords, Ended>
    requires { IsSetting moment offset_minutes }
    ensures { IsSaid
        (word_said_of moment offset_minutes all.now items.now (option_map (λ w. w.now) word.entry)
        (component_of items.now)) result }
{
    match component(alloc, items)? {
        Some(name) => named(alloc, items, word, &name, moment, offset_minutes),
        None => Err(wrong_at(alloc, all, all.len() as u64, WordWhy::Missing)?),
    }
}

/// What the items of the words say.
fn items_said(
    alloc: Global,
    all: &TextList,
    items: &ItemList,
    moment: i64,
    offset_minutes: i32,
) -> Result<AnnoWords, Ended>
    requires { IsSetting moment offset_minutes }
    ensures { IsSaid (anno_items moment offset_minutes all.now items.now) result }
{
    let wrong = wrong_value(items);
    match folder_word(items) {
        Ok(word) => {
            if let Some(place) = wrong {
                return Err(wrong_at(alloc, all, place, WordWhy::BadValue)?);
            }
            word_said(alloc, all, items, word, moment, offset_minutes)
        }
        Err(second) => Err(wrong_earliest(alloc, all, wrong, second)?),
    }
}

/// What the words of `anno` say, those of the profile first. Its date is that of this moment, in seconds from
/// 1970-01-01 00:00:00 UTC, by a clock that is so many minutes ahead of UTC.
pub fn anno_words(
    alloc: Global,
    profile: &Entries,
    words: &[String],
    moment: i64,
    offset_minutes: i32,
) -> Result<AnnoWords, Ended>
    requires { IsSetting moment offset_minutes }
    ensures { IsSaid (anno_said moment offset_minutes profile.now (map chars (map string_bytes words.now))) result }
{
    let table = anno_table(alloc)?;
    let all = all_words(alloc, profile, b"anno", words)?;
    let items = read_items(alloc, &table, &all)?;
    items_said(alloc, &all, &items, moment, offset_minutes)
}
