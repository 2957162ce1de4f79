// Which switches are among the items of words.
ghost use Rattle.std.specs.Prelude.{◌≡◌, ◌++◌, IfOk, OnOk};
ghost use Rattle.command_words.specs.Switches.{choice_in, last_or, last_choice as last_choice_of, is_switch as is_switch_of, is_given as is_given_of, value_in, values as values_of, last_of};

use mh_base::{Duplicate, List, Text, TextList};
use mh_words::{Item, ItemList};
use std::alloc::{AllocError, Global};

/// Of two opposed switches, whether the last so far is the one, with one item more.
fn choice_by(on: u64, off: u64, item: &Item, before: Option<bool>) -> Option<bool>
    ensures { result ≡ last_or before (choice_in on off item.now) }
{
    match item {
        Item::Switch { index, .. } => {
            if *index == on {
                Some(true)
            } else if *index == off {
                Some(false)
            } else {
                before
            }
        }
        _ => before,
    }
}

/// Of two opposed switches, at these indexes, whether the last that is given is the one.
pub fn last_choice(on: u64, off: u64, items: &ItemList) -> Option<bool>
    ensures { result ≡ last_choice_of on off items.now }
{
    let mut last = None;
    for item in items.as_slice() {
        last = choice_by(on, off, item, last);
    }
    last
}

fn is_switch(at: u64, item: &Item) -> bool
    ensures { result ≡ is_switch_of at item.now }
{
    match item {
        Item::Switch { index, .. } => *index == at,
        _ => false,
    }
}

/// Whether the switch at this index is given.
pub fn is_given(at: u64, items: &ItemList) -> bool
    ensures { result ≡ is_given_of at items.now }
{
    items.as_slice().iter().any(|item| is_switch(at, item))
}

fn push_value(alloc: Global, at: u64, words: &mut TextList, item: &Item) -> Result<(), AllocError>
    ensures { OnOk result (words.new ≡ words.old ++ value_in at item.now) }
{
    match item {
        Item::Switch {
            index,
            value: Some(value),
            ..
        } => {
            if *index == at {
                words.push(value.duplicate(alloc)?)
            } else {
                Ok(())
            }
        }
        _ => Ok(()),
    }
}

/// The values of the switch at this index, in their order.
pub fn values(alloc: Global, at: u64, items: &ItemList) -> Result<TextList, AllocError>
    ensures { IfOk result (λ words. words ≡ values_of at items.now) }
{
    let mut words = List::new(alloc);
    for item in items.as_slice() {
        push_value(alloc, at, &mut words, item)?;
    }
    Ok(words)
}

/// The last of these words.
pub fn last_word(alloc: Global, words: &TextList) -> Result<Option<Text>, AllocError>
    ensures { IfOk result (λ word. word ≡ last_of words.now) }
{
    match words.as_slice().last() {
        Some(word) => Ok(Some(word.duplicate(alloc)?)),
        None => Ok(None),
    }
}
