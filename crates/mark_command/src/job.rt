// What `mark` is to do.

use mh_base::{Bytes, FolderName, TextList};
use mh_sequences::SeqNameList;

/// What is done to the sequences.
#[derive(Clone, Copy, Debug, PartialEq, Eq)]
pub enum MarkAct {
    /// The chosen messages come to them.
    Add,
    /// The chosen messages leave them.
    Delete,
    /// They have just the chosen messages.
    Set,
    /// They have just the messages of the folder that were not chosen.
    SetOthers,
}

/// What `mark` is to do: the folder, the words that choose messages, the sequences, what is done to them, or nothing
/// where they are listed alone; whether they are listed, whether they become public or private, and the prefix of
/// negation, which is empty where there is none.
#[derive(Drop)]
pub struct MarkJob {
    pub folder: FolderName,
    pub specs: TextList,
    pub names: SeqNameList,
    pub act: Option<MarkAct>,
    pub list: bool,
    pub public: Option<bool>,
    pub negation: Bytes,
}
