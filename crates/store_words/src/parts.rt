// The parts that words name.
ghost use Rattle.std.specs.Prelude.{◌≡◌, ◌++◌, IfOk, OnOk};
ghost use Rattle.store_words.specs.Values.{parts_in, parts_of, path_by as path_by_of};

use crate::table::PART;
use list_words::part;
use mh_base::{List, Text};
use mh_words::{Item, ItemList};
use mime_tree::PartPath;
use std::alloc::{AllocError, Global};

/// The path that the value of the switch of this index is, where it is one.
fn path_by(alloc: Global, index: u64, value: &Text) -> Result<Option<PartPath>, AllocError>
    ensures { IfOk result (λ path. path ≡ path_by_of index value.now) }
{
    if index == PART {
        part(alloc, value)
    } else {
        Ok(None)
    }
}

/// One item more.
fn push_part(alloc: Global, item: &Item, parts: &mut List<PartPath>) -> Result<(), AllocError>
    ensures { OnOk result (parts.new ≡ parts.old ++ parts_in item.now) }
{
    match item {
        Item::Switch {
            index,
            value: Some(value),
            ..
        } => {
            if let Some(path) = path_by(alloc, *index, value)? {
                parts.push(path)?;
            }
            Ok(())
        }
        _ => Ok(()),
    }
}

/// The parts that the items name, in their order.
pub(crate) fn parts(alloc: Global, items: &ItemList) -> Result<List<PartPath>, AllocError>
    ensures { IfOk result (λ parts. parts ≡ parts_of items.now) }
{
    let mut parts = List::new(alloc);
    for item in items.as_slice() {
        push_part(alloc, item, &mut parts)?;
    }
    Ok(parts)
}
