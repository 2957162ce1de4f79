// The parts that words name.
ghost use Rattle.std.specs.Prelude.{◌≡◌, ◌++◌, IfOk, OnOk};
ghost use Rattle.mime_tree.specs.Paths.{path_of};
ghost use Rattle.command_words.specs.BadValues.{first_of};
ghost use Rattle.list_words.specs.Parts.{parts_in, parts_of, wrong_in, wrong_parts};

use mh_base::{List, Text};
use mh_words::{Item, ItemList};
use mime_tree::{PartPath, PathFault};
use std::alloc::{AllocError, Global};

/// The path that a word is, if it is one.
pub fn part(alloc: Global, word: &Text) -> Result<Option<PartPath>, AllocError>
    ensures { IfOk result (λ part. part ≡ path_of word.now) }
{
    match PartPath::read(alloc, word) {
        Ok(path) => Ok(Some(path)),
        Err(PathFault::BadPath) => Ok(None),
        Err(PathFault::Memory) => Err(AllocError),
    }
}

/// One item more.
fn push_part(alloc: Global, item: &Item, parts: &mut List<PartPath>) -> Result<(), AllocError>
    ensures { OnOk result (parts.new ≡ parts.old ++ parts_in item.now) }
{
    match item {
        Item::Switch {
            value: Some(value),
            ..
        } => {
            if let Some(path) = part(alloc, value)? {
                parts.push(path)?;
            }
            Ok(())
        }
        _ => Ok(()),
    }
}

/// The parts that the items name, in their order.
pub(crate) fn parts(alloc: Global, items: &ItemList) -> Result<List<PartPath>, AllocError>
    ensures { IfOk result (λ parts. parts ≡ parts_of items.now) }
{
    let mut parts = List::new(alloc);
    for item in items.as_slice() {
        push_part(alloc, item, &mut parts)?;
    }
    Ok(parts)
}

/// The place of a value that is no path.
fn wrong_place(alloc: Global, item: &Item) -> Result<Option<u64>, AllocError>
    ensures { IfOk result (λ place. place ≡ first_of (wrong_in item.now)) }
{
    match item {
        Item::Switch {
            value: Some(value),
            place,
            ..
        } => match part(alloc, value)? {
            Some(_) => Ok(None),
            None => Ok(Some(*place)),
        },
        _ => Ok(None),
    }
}

/// The place of the first of them.
pub(crate) fn wrong_part(alloc: Global, items: &ItemList) -> Result<Option<u64>, AllocError>
    ensures { IfOk result (λ place. place ≡ first_of (wrong_parts items.now)) }
{
    for item in items.as_slice() {
        if let Some(place) = wrong_place(alloc, item)? {
            return Ok(Some(place));
        }
    }
    Ok(None)
}
