// By what messages are put in order.
ghost use Rattle.std.specs.Prelude.{◌≡◌, codes, IfOk};
ghost use Rattle.std.specs.Str.{encode_utf8_all};
ghost use Rattle.command_words.specs.BadValues.{first_of};
ghost use Rattle.sort_words.specs.Keys.{key_in, key_of, wrong_in, wrong_names};
ghost use Rattle.command_words.specs.Switches.{last_behind};

use crate::table::{DATEFIELD, TEXTFIELD};
use command_words::is_field_name;
use mh_base::{Bytes, Text};
use mh_words::{Item, ItemList};
use sortm_plans::SortKey;
use std::alloc::{AllocError, Global};

fn bytes_of(alloc: Global, name: &Text) -> Result<Bytes, AllocError>
    ensures { IfOk result (λ bytes. bytes ≡ encode_utf8_all name.now) }
{
    Bytes::from_slice(alloc, name.as_str().as_bytes())
}

/// The key so far, with one item more.
fn key_by(alloc: Global, item: &Item, before: SortKey) -> Result<SortKey, AllocError>
    ensures { IfOk result (λ key. key ≡ last_behind before (key_in item.now)) }
{
    match item {
        Item::Switch {
            index,
            value: Some(value),
            ..
        } => {
            if *index == DATEFIELD {
                Ok(SortKey::Date(bytes_of(alloc, value)?))
            } else if *index == TEXTFIELD {
                Ok(SortKey::Text(bytes_of(alloc, value)?))
            } else {
                Ok(before)
            }
        }
        _ => Ok(before),
    }
}

/// The date of the message, as without a word of it.
fn usual(alloc: Global) -> Result<SortKey, AllocError>
    ensures { IfOk result (λ key. key ≡ SortKey.Date (codes "date")) }
{
    Ok(SortKey::Date(Bytes::from_slice(alloc, b"date")?))
}

/// The last key that is named, or the message's date.
pub(crate) fn key(alloc: Global, items: &ItemList) -> Result<SortKey, AllocError>
    ensures { IfOk result (λ key. key ≡ key_of items.now) }
{
    let mut key = usual(alloc)?;
    for item in items.as_slice() {
        key = key_by(alloc, item, key)?;
    }
    Ok(key)
}

/// The place of a value that is no field's name.
fn wrong_place(item: &Item) -> Option<u64>
    ensures { result ≡ first_of (wrong_in item.now) }
{
    match item {
        Item::Switch {
            value: Some(value),
            place,
            ..
        } => {
            if is_field_name(value) {
                None
            } else {
                Some(*place)
            }
        }
        _ => None,
    }
}

/// The place of the first of them.
pub(crate) fn wrong_name(items: &ItemList) -> Option<u64>
    ensures { result ≡ first_of (wrong_names items.now) }
{
    for item in items.as_slice() {
        if let Some(place) = wrong_place(item) {
            return Some(place);
        }
    }
    None
}
