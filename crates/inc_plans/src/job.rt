// What `inc` is to do.

use folder_files::FilePath;
use message_lines::Look;
use mh_base::FolderName;
use mh_sequences::SeqNameList;

/// What `inc` is to do: the folder; the drop; whether this is cut to nothing at last; whether nothing is written;
/// whether the first new message becomes the current one; the sequences to which the new messages come; and how
/// messages are looked at.
#[derive(Drop)]
pub struct IncJob {
    pub folder: FolderName,
    pub drop: FilePath,
    pub truncate: bool,
    pub silent: bool,
    pub change_cur: bool,
    pub unseen: SeqNameList,
    pub look: Look,
}
