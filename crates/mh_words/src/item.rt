// What the words of a command line say.

use mh_base::{List, Text};

/// What a word, or a word and its value, says. Its place is that of the word, from 0 through the
/// profile's words and on through the command's.
#[derive(Drop)]
pub enum Item {
    /// A folder: the whole word, with its plus sign.
    Folder {
        text: Text,
        place: u64,
    },
    /// A message's name: the whole word.
    Message {
        text: Text,
        place: u64,
    },
    /// A switch by its index in the table, from 0, and its value where its kind has one.
    Switch {
        index: u64,
        value: Option<Text>,
        place: u64,
    },
    /// A component to search, and what to search in it.
    Component {
        name: Text,
        value: Text,
        place: u64,
    },
}

pub type ItemList = List<Item>;

/// What all the words say, in their order.
#[derive(Drop)]
pub struct Words {
    pub items: ItemList,
}
