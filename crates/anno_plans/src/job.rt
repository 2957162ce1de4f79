// What `anno` is to do.

use mh_base::{Bytes, FolderName, TextList};

/// What `anno` is to do: the folder, the words that choose messages, the lines that these get in front of their bytes,
/// each a field's name, a colon, a space, any text and a line feed, and the prefix of negation, which is empty where
/// there is none.
#[derive(Drop)]
pub struct AnnoJob {
    pub folder: FolderName,
    pub specs: TextList,
    pub lines: Bytes,
    pub negation: Bytes,
}
