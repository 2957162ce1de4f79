// What `folder -pack` is to do.

use mh_base::FolderName;

/// What `folder -pack` is to do: the folder.
#[derive(Drop)]
pub struct PackJob {
    pub folder: FolderName,
}
