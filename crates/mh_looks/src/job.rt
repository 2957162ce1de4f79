// What `scan` is to do.

use message_lines::Look;
use mh_base::{Bytes, FolderName, TextList};
use mh_sequences::SeqNameList;

/// What `scan` is to do: the folder, the words that choose messages, whether the last comes first, the sequences whose
/// messages are unseen, the prefix of negation, which is empty where there is none, and how messages are looked at.
#[derive(Drop)]
pub struct ScanJob {
    pub folder: FolderName,
    pub specs: TextList,
    pub reverse: bool,
    pub unseen: SeqNameList,
    pub negation: Bytes,
    pub look: Look,
}
