// Where messages go.

use folder_files::Place;
use message_lines::Look;
use mh_base::FolderName;
use mh_sequences::Sequences;

/// Where messages go: the folder and its place; whether no line is written of them; and for their lines whether the
/// first becomes the current message, whether they come to an unseen sequence, the folder's sequences before, and how
/// messages are looked at.
#[derive(Clone, Copy)]
pub struct Target<'a> {
    pub folder: &'a FolderName,
    pub place: &'a Place,
    pub silent: bool,
    pub change_cur: bool,
    pub unseen: bool,
    pub sequences: &'a Sequences,
    pub look: &'a Look,
}
