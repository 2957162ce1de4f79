// The format that words name.

use folder_files::FilePath;
use mh_base::Text;

/// The format of a message's line: the one that is there without words, the one of a word, or the one of a file.
#[derive(Drop)]
pub enum LineFormat {
    Default,
    Word(Text),
    File(FilePath),
}
