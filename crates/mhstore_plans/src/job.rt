// What `mhstore` is to do.

use mh_base::{Bytes, FolderName, List, TextList};
use mime_tree::PartPath;

/// What `mhstore` is to do: the folder, the words that choose messages, the parts that are wanted, or none where all
/// leaves are, whether a file that stands in the current directory is replaced, and the prefix of negation, which is
/// empty where there is none.
#[derive(Drop)]
pub struct StoreJob {
    pub folder: FolderName,
    pub specs: TextList,
    pub parts: List<PartPath>,
    pub clobber: bool,
    pub negation: Bytes,
}
