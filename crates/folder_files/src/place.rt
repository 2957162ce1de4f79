// Where steps are made.
ghost use Rattle.std.specs.Prelude.{◌≡◌, ◌↔◌, IfOk, IsTrue};

use mh_base::{Bytes, Duplicate, FolderName};
use std::alloc::{AllocError, Global};

/// A directory.
#[derive(Drop)]
pub enum Place {
    /// The user's home directory.
    Home,
    /// The current directory.
    Work,
    /// The mail directory at this path, relative to home unless absolute.
    Mail(Bytes),
    /// A folder of the mail directory at this path.
    Folder(Bytes, FolderName),
}

/// A file outside the mailbox, relative to home or to the current directory unless absolute.
#[derive(Drop)]
pub struct FilePath {
    pub home: bool,
    pub text: Bytes,
}

impl Place {
    pub fn same(&self, other: &Place) -> bool
        ensures { IsTrue result ↔ (self.now ≡ other.now) }
    {
        match (self, other) {
            (Place::Home, Place::Home) | (Place::Work, Place::Work) => true,
            (Place::Mail(path), Place::Mail(other)) => path.same(other),
            (Place::Folder(path, name), Place::Folder(other, named)) => {
                path.same(other) && name.text().same(named.text())
            }
            _ => false,
        }
    }
}

impl FilePath {
    pub fn same(&self, other: &FilePath) -> bool
        ensures { IsTrue result ↔ (self.now ≡ other.now) }
    {
        self.home == other.home && self.text.same(&other.text)
    }
}

impl Duplicate for Place {
    fn duplicate(&self, alloc: Global) -> Result<Place, AllocError> {
        match self {
            Place::Home => Ok(Place::Home),
            Place::Work => Ok(Place::Work),
            Place::Mail(path) => Ok(Place::Mail(path.duplicate(alloc)?)),
            Place::Folder(path, name) => {
                Ok(Place::Folder(path.duplicate(alloc)?, name.duplicate(alloc)?))
            }
        }
    }
}

impl Duplicate for FilePath {
    fn duplicate(&self, alloc: Global) -> Result<FilePath, AllocError> {
        Ok(FilePath {
            home: self.home,
            text: self.text.duplicate(alloc)?,
        })
    }
}
