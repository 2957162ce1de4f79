// Where words name messages.
ghost use Rattle.std.specs.Prelude.{◌≡◌};
ghost use Rattle.command_words.specs.BadValues.{first_of};
ghost use Rattle.command_words.specs.MessagePlaces.{message_places, place_in};

use mh_words::{Item, ItemList};

/// The place of the message's name that an item is.
pub fn message_place(item: &Item) -> Option<u64>
    ensures { result ≡ first_of (place_in item.now) }
{
    match item {
        Item::Message { place, .. } => Some(*place),
        _ => None,
    }
}

/// The place of the first message's name.
pub fn first_message(items: &ItemList) -> Option<u64>
    ensures { result ≡ first_of (message_places items.now) }
{
    for item in items.as_slice() {
        if let Some(place) = message_place(item) {
            return Some(place);
        }
    }
    None
}
