// What `rmm` and `refile` are to do.

use mh_base::{Bytes, FolderName, List, TextList};

/// What `rmm` is to do: the folder, the words that choose messages, whether these are unlinked, or else kept as
/// backups, and the prefix of negation, which is empty where there is none.
#[derive(Drop)]
pub struct RmmJob {
    pub folder: FolderName,
    pub specs: TextList,
    pub unlink: bool,
    pub negation: Bytes,
}

/// What `refile` is to do: the folder that messages leave, and whether it becomes the current one; the words that
/// choose messages; the folder that they go to, and others; whether they are copied there and stay; and the prefix of
/// negation, which is empty where there is none.
#[derive(Drop)]
pub struct RefileJob {
    pub source: FolderName,
    pub set_current: bool,
    pub specs: TextList,
    pub target: FolderName,
    pub others: List<FolderName>,
    pub link: bool,
    pub negation: Bytes,
}
