// The messages' names among words.
ghost use Rattle.std.specs.Prelude.{◌≡◌, ◌++◌, ◌∷◌, [], IfOk, OnOk};
ghost use Rattle.std.specs.Str.{chars};
ghost use Rattle.command_words.specs.MessageWords.{message_in, messages as messages_of, names_or as names_or_of};

use mh_base::{Duplicate, List, Text, TextList};
use mh_words::{Item, ItemList};
use std::alloc::{AllocError, Global};

fn push_message(alloc: Global, words: &mut TextList, item: &Item) -> Result<(), AllocError>
    ensures { OnOk result (words.new ≡ words.old ++ message_in item.now) }
{
    match item {
        Item::Message { text, .. } => words.push(text.duplicate(alloc)?),
        _ => Ok(()),
    }
}

/// The messages' names, in their order.
pub fn messages(alloc: Global, items: &ItemList) -> Result<TextList, AllocError>
    ensures { IfOk result (λ words. words ≡ messages_of items.now) }
{
    let mut words = List::new(alloc);
    for item in items.as_slice() {
        push_message(alloc, &mut words, item)?;
    }
    Ok(words)
}

fn one_name(alloc: Global, name: &str) -> Result<TextList, AllocError>
    ensures { IfOk result (λ words. words ≡ chars name.now ∷ []) }
{
    let mut names = List::new(alloc);
    names.push(Text::from_str(alloc, name)?)?;
    Ok(names)
}

/// The names, or this one where there are none.
fn names_or(alloc: Global, default: &str, names: TextList) -> Result<TextList, AllocError>
    ensures { IfOk result (λ words. words ≡ names_or_of (chars default.now) names) }
{
    if names.len() == 0 {
        one_name(alloc, default)
    } else {
        Ok(names)
    }
}

/// The messages' names, or this one where there are none.
pub fn messages_or(alloc: Global, default: &str, items: &ItemList) -> Result<TextList, AllocError>
    ensures { IfOk result (λ words. words ≡ names_or_of (chars default.now) (messages_of items.now)) }
{
    names_or(alloc, default, messages(alloc, items)?)
}
