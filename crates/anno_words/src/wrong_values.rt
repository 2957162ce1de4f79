// Values that are wrong: a component that is no field's name, and a text of more lines than one.
ghost use Rattle.std.specs.Prelude.{◌≡◌};
ghost use Rattle.command_words.specs.BadValues.{first_of};
ghost use Rattle.annotation_lines.specs.Lines.{is_line_byte as is_line_byte_of, is_on_a_line as is_on_a_line_of};
ghost use Rattle.anno_words.specs.WrongValues.{is_wrong as is_wrong_of, wrong_in, wrong_values};

use crate::table::{COMPONENT, TEXT};
use command_words::is_field_name;
use mh_base::Text;
use mh_words::{Item, ItemList};

fn is_line_byte(byte: u8) -> bool
    ensures { result ≡ is_line_byte_of byte }
{
    byte != b'\n' && byte != b'\r'
}

fn is_on_a_line(bytes: &[u8]) -> bool
    ensures { result ≡ is_on_a_line_of bytes.now }
{
    bytes.iter().all(|byte| is_line_byte(*byte))
}

/// Whether the switch of this index may not have this value.
fn is_wrong(index: u64, value: &Text) -> bool
    ensures { result ≡ is_wrong_of index value.now }
{
    if index == COMPONENT {
        !is_field_name(value)
    } else if index == TEXT {
        !is_on_a_line(value.as_str().as_bytes())
    } else {
        false
    }
}

/// The place of a wrong value.
fn wrong_place(item: &Item) -> Option<u64>
    ensures { result ≡ first_of (wrong_in item.now) }
{
    match item {
        Item::Switch {
            index,
            value: Some(value),
            place,
        } => {
            if is_wrong(*index, value) {
                Some(*place)
            } else {
                None
            }
        }
        _ => None,
    }
}

/// The place of the first wrong value.
pub(crate) fn wrong_value(items: &ItemList) -> Option<u64>
    ensures { result ≡ first_of (wrong_values items.now) }
{
    for item in items.as_slice() {
        if let Some(place) = wrong_place(item) {
            return Some(place);
        }
    }
    None
}
