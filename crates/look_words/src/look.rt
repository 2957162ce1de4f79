// What words say of the lines of messages.
ghost use Rattle.std.specs.Prelude.{◌≡◌, IfOk};
ghost use Rattle.std.specs.List.{list_all};
ghost use Rattle.std.specs.Str.{encode_utf8_all};
ghost use Rattle.command_words.specs.BadValues.{first_of};
ghost use Rattle.look_words.specs.Columns.{columns_in, within_columns};
ghost use Rattle.look_words.specs.LookWords.{format_in, look_of, width_in, wrong_width_in, wrong_widths};
ghost use Rattle.mh_base.specs.Characters.{is_digit as is_digit_of};
ghost use Rattle.command_words.specs.Switches.{last_behind};

use crate::table::{FORM, FORMAT, WIDTH};
use mh_base::{Duplicate, Text};
use mh_words::{Item, ItemList};
use std::alloc::{AllocError, Global};

/// The widest line, in columns.
const WIDEST: u32 = 10_000;

/// The format of lines, as words name it: the one that is there without words, the one of a word, or the one of the
/// file of this path.
#[derive(Drop)]
pub enum FormatWords {
    Default,
    Word(Text),
    File(Text),
}

/// The format of lines, and the columns that they have at most.
#[derive(Drop)]
pub struct LookWords {
    pub format: FormatWords,
    pub width: u32,
}

fn is_digit(byte: u8) -> bool
    ensures { result ≡ is_digit_of byte }
{
    48 <= byte && byte <= 57
}

fn are_digits(text: &[u8]) -> bool
    ensures { result ≡ list_all is_digit_of text.now }
{
    text.iter().all(|byte| is_digit(*byte))
}

/// So many columns, if they are 1 to 10,000.
fn within(columns: u32) -> Option<u32>
    ensures { result ≡ within_columns columns }
{
    if 1 <= columns && columns <= WIDEST {
        Some(columns)
    } else {
        None
    }
}

/// The columns that a word says, from 1 to 10,000.
fn columns(word: &Text) -> Option<u32>
    ensures { result ≡ columns_in (encode_utf8_all word.now) }
{
    let text = word.as_str();
    if are_digits(text.as_bytes()) {
        match text.parse::<u32>() {
            Ok(columns) => within(columns),
            Err(_) => None,
        }
    } else {
        None
    }
}

/// The width so far, with one item more.
fn width_by(item: &Item, before: u32) -> u32
    ensures { result ≡ last_behind before (width_in item.now) }
{
    match item {
        Item::Switch {
            index,
            value: Some(value),
            ..
        } => {
            if *index == WIDTH {
                columns(value).unwrap_or(before)
            } else {
                before
            }
        }
        _ => before,
    }
}

/// The last width that is named.
fn last_width(items: &ItemList) -> u32
    ensures { result ≡ (look_of items.now).width }
{
    let mut width = 80;
    for item in items.as_slice() {
        width = width_by(item, width);
    }
    width
}

/// The format so far, with one item more.
fn format_by(alloc: Global, item: &Item, before: FormatWords) -> Result<FormatWords, AllocError>
    ensures { IfOk result (λ format. format ≡ last_behind before (format_in item.now)) }
{
    match item {
        Item::Switch {
            index,
            value: Some(value),
            ..
        } => {
            if *index == FORMAT {
                Ok(FormatWords::Word(value.duplicate(alloc)?))
            } else if *index == FORM {
                Ok(FormatWords::File(value.duplicate(alloc)?))
            } else {
                Ok(before)
            }
        }
        _ => Ok(before),
    }
}

/// The last format that is named, or its file.
fn last_format(alloc: Global, items: &ItemList) -> Result<FormatWords, AllocError>
    ensures { IfOk result (λ format. format ≡ (look_of items.now).format) }
{
    let mut format = FormatWords::Default;
    for item in items.as_slice() {
        format = format_by(alloc, item, format)?;
    }
    Ok(format)
}

pub(crate) fn look(alloc: Global, items: &ItemList) -> Result<LookWords, AllocError>
    ensures { IfOk result (λ l. l ≡ look_of items.now) }
{
    Ok(LookWords {
        format: last_format(alloc, items)?,
        width: last_width(items),
    })
}

/// The place of a width that is none.
fn wrong_place(item: &Item) -> Option<u64>
    ensures { result ≡ first_of (wrong_width_in item.now) }
{
    match item {
        Item::Switch {
            index,
            value: Some(value),
            place,
        } => {
            if *index == WIDTH && columns(value).is_none() {
                Some(*place)
            } else {
                None
            }
        }
        _ => None,
    }
}

/// The place of the first width that is none.
pub(crate) fn wrong_width(items: &ItemList) -> Option<u64>
    ensures { result ≡ first_of (wrong_widths items.now) }
{
    for item in items.as_slice() {
        if let Some(place) = wrong_place(item) {
            return Some(place);
        }
    }
    None
}
