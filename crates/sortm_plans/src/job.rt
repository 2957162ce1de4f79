// What `sortm` is to do.

use mh_base::{Bytes, FolderName, TextList};

/// By what messages are put in order.
#[derive(Drop)]
pub enum SortKey {
    /// The date of the field of this name.
    Date(Bytes),
    /// The text of the field of this name.
    Text(Bytes),
}

/// What `sortm` is to do: the folder, the words that choose messages, by what these are put in order, and the prefix of
/// negation, which is empty where there is none.
#[derive(Drop)]
pub struct SortJob {
    pub folder: FolderName,
    pub specs: TextList,
    pub key: SortKey,
    pub negation: Bytes,
}
