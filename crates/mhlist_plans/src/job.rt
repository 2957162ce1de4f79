// What `mhlist` is to do.

use mh_base::{Bytes, FolderName, List, TextList};
use mime_tree::PartPath;

/// What `mhlist` is to do: the folder, the words that choose messages, the parts that are wanted, or none where all
/// are, and the prefix of negation, which is empty where there is none.
#[derive(Drop)]
pub struct ListJob {
    pub folder: FolderName,
    pub specs: TextList,
    pub parts: List<PartPath>,
    pub negation: Bytes,
}
