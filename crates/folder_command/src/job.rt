// What `folder` is to do.

use mh_base::{Bytes, FolderName, TextList};

/// What `folder` is to do: the folder; words of which the least message that they choose becomes the current one, or
/// none where the folder is only looked at; and the prefix of negation, which is empty where there is none.
#[derive(Drop)]
pub struct FolderJob {
    pub folder: FolderName,
    pub specs: TextList,
    pub negation: Bytes,
}
