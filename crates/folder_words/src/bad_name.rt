// Words of `pick` that have no header field's name where one is wanted.
ghost use Rattle.std.specs.Prelude.{◌≡◌};
ghost use Rattle.command_words.specs.BadValues.{first_of};
ghost use Rattle.folder_words.specs.BadNames.{bad_name_in, bad_names};

use crate::table::PICK_DATEFIELD;
use command_words::is_field_name;
use mh_words::{Item, ItemList};

/// The place of a component, or of the field for dates, that has no field's name.
fn bad_place(item: &Item) -> Option<u64>
    ensures { result ≡ first_of (bad_name_in item.now) }
{
    match item {
        Item::Component { name, place, .. } => {
            if is_field_name(name) {
                None
            } else {
                Some(*place)
            }
        }
        Item::Switch {
            index,
            value: Some(value),
            place,
        } => {
            if *index == PICK_DATEFIELD && !is_field_name(value) {
                Some(*place)
            } else {
                None
            }
        }
        _ => None,
    }
}

/// The place of the first of them.
pub(crate) fn bad_name(items: &ItemList) -> Option<u64>
    ensures { result ≡ first_of (bad_names items.now) }
{
    for item in items.as_slice() {
        if let Some(place) = bad_place(item) {
            return Some(place);
        }
    }
    None
}
