// What a draft wants of the mailbox and of files.

use folder_files::FilePath;
use mh_base::{List, Text, TextList};

/// What stands for a part of a draft: a file, or messages of a folder.
#[derive(Drop)]
pub enum Want {
    File(FilePath),
    /// The folder's word with its plus sign, where one is named, and the words that name messages.
    Messages {
        folder: Option<Text>,
        specs: TextList,
    },
}

pub type WantList = List<Want>;
