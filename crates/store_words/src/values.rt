// Whether files are replaced; and values that are wrong: a part that is no path, and a word behind `-clobber` that is
// neither of its two.
ghost use Rattle.std.specs.Prelude.{◌≡◌, IfOk};
ghost use Rattle.command_words.specs.BadValues.{first_of};
ghost use Rattle.store_words.specs.Values.{
  clobbers as clobbers_of,
  is_always as is_always_of,
  is_choice as is_choice_of,
  is_wrong as is_wrong_of,
  wrong_in,
  wrong_values,
};

use crate::table::{CLOBBER, PART};
use command_words::{last_word, values};
use list_words::part;
use mh_base::Text;
use mh_words::{Item, ItemList};
use std::alloc::{AllocError, Global};

fn is_always(word: &Text) -> bool
    ensures { result ≡ is_always_of word.now }
{
    word.as_str().as_bytes() == b"always".as_slice()
}

fn is_choice(word: &Text) -> bool
    ensures { result ≡ is_choice_of word.now }
{
    is_always(word) || word.as_str().as_bytes() == b"never".as_slice()
}

/// Whether a file that stands in the current directory is replaced.
pub(crate) fn clobbers(alloc: Global, items: &ItemList) -> Result<bool, AllocError>
    ensures { IfOk result (λ replaces. replaces ≡ clobbers_of items.now) }
{
    match last_word(alloc, &values(alloc, CLOBBER, items)?)? {
        Some(word) => Ok(is_always(&word)),
        None => Ok(false),
    }
}

/// Whether the switch of this index may not have this value.
fn is_wrong(alloc: Global, index: u64, value: &Text) -> Result<bool, AllocError>
    ensures { IfOk result (λ wrong. wrong ≡ is_wrong_of index value.now) }
{
    if index == PART {
        Ok(part(alloc, value)?.is_none())
    } else if index == CLOBBER {
        Ok(!is_choice(value))
    } else {
        Ok(false)
    }
}

/// The place of a wrong value.
fn wrong_place(alloc: Global, item: &Item) -> Result<Option<u64>, AllocError>
    ensures { IfOk result (λ place. place ≡ first_of (wrong_in item.now)) }
{
    match item {
        Item::Switch {
            index,
            value: Some(value),
            place,
        } => {
            if is_wrong(alloc, *index, value)? {
                Ok(Some(*place))
            } else {
                Ok(None)
            }
        }
        _ => Ok(None),
    }
}

/// The place of the first wrong value.
pub(crate) fn wrong_value(alloc: Global, items: &ItemList) -> Result<Option<u64>, AllocError>
    ensures { IfOk result (λ place. place ≡ first_of (wrong_values items.now)) }
{
    for item in items.as_slice() {
        if let Some(place) = wrong_place(alloc, item)? {
            return Ok(Some(place));
        }
    }
    Ok(None)
}
