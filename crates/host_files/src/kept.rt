// Files and directories that stay open.
use crate::fault::{Found, HostFault, changed, looked_up};
use crate::same_file::are_one;
use std::fs::{File, Metadata};
use std::{fs, io};

/// An open file or directory, what it is, and the path by which it was opened.
#[derive(Drop)]
pub(crate) struct Kept {
    path: String,
    file: File,
    what: Metadata,
}

impl Kept {
    pub(crate) fn new(path: String, file: File) -> io::Result<Kept> {
        let what = file.metadata()?;
        Ok(Kept { path, file, what })
    }

    pub(crate) fn path(&self) -> &str {
        self.path.as_str()
    }

    pub(crate) fn is_of(&self, path: &str) -> bool {
        self.path.as_str() == path
    }

    /// Makes it safe, and says whether the path leads to it still.
    pub(crate) fn sync(&self, rt: &HostRuntime) -> Result<Found<bool>, HostFault> {
        changed(self.file.sync_all())?;
        match looked_up(fs::metadata(rt, self.path.as_str()))? {
            Found::There(named) => Ok(Found::There(are_one(&named, &self.what))),
            _ => Ok(Found::Gone),
        }
    }
}
