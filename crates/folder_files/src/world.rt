// Worlds: what is on the disk, and what a crash may still take back.
ghost use Rattle.std.specs.Prelude.{◌≡◌, IfOk};

use crate::{FilePath, Place};
use mh_base::{Bytes, Duplicate, List, Name};
use std::alloc::{AllocError, Global};

#[derive(Drop)]
pub struct World {
    pub directories: DirectoryList,
    pub files: FileList,
    pub drops: OutsideList,
    pub locks: LockList,
    pub ended: RunList,
}

/// A directory: what outlasts a crash, and the changes since, oldest first.
#[derive(Drop)]
pub struct Directory {
    pub place: Place,
    pub safe: SlotList,
    pub pending: ChangeList,
}

/// A name and the file to which it leads.
#[derive(Drop)]
pub struct Slot {
    pub name: Name,
    pub file: u64,
}

/// One change of a directory.
#[derive(Drop)]
pub enum Change {
    Set(Name, u64),
    Gone(Name),
    Moved(Name, Name),
}

/// A file; its bytes outlast a crash where it is safe.
#[derive(Drop)]
pub struct File {
    pub id: u64,
    pub bytes: Bytes,
    pub safe: bool,
}

/// A file outside the mailbox, as a mail drop.
#[derive(Drop)]
pub struct Outside {
    pub path: FilePath,
    pub bytes: Bytes,
}

/// A lock and the run that holds it.
#[derive(Drop)]
pub struct Held {
    pub place: Place,
    pub run: u128,
}

pub type ChangeList = List<Change>;

pub type DirectoryList = List<Directory>;

pub type FileList = List<File>;

pub type LockList = List<Held>;

pub type OutsideList = List<Outside>;

pub type RunList = List<u128>;

pub type SlotList = List<Slot>;

impl Duplicate for Slot {
    fn duplicate(&self, alloc: Global) -> Result<Slot, AllocError> {
        Ok(Slot {
            name: self.name.duplicate(alloc)?,
            file: self.file,
        })
    }
}

impl Duplicate for Held {
    fn duplicate(&self, alloc: Global) -> Result<Held, AllocError> {
        Ok(Held {
            place: self.place.duplicate(alloc)?,
            run: self.run,
        })
    }
}

impl Duplicate for Outside {
    fn duplicate(&self, alloc: Global) -> Result<Outside, AllocError> {
        Ok(Outside {
            path: self.path.duplicate(alloc)?,
            bytes: self.bytes.duplicate(alloc)?,
        })
    }
}

impl Duplicate for Change {
    fn duplicate(&self, alloc: Global) -> Result<Change, AllocError> {
        match self {
            Change::Set(name, file) => Ok(Change::Set(name.duplicate(alloc)?, *file)),
            Change::Gone(name) => Ok(Change::Gone(name.duplicate(alloc)?)),
            Change::Moved(from, to) => {
                Ok(Change::Moved(from.duplicate(alloc)?, to.duplicate(alloc)?))
            }
        }
    }
}

impl Duplicate for Directory {
    fn duplicate(&self, alloc: Global) -> Result<Directory, AllocError> {
        Ok(Directory {
            place: self.place.duplicate(alloc)?,
            safe: self.safe.duplicate(alloc)?,
            pending: self.pending.duplicate(alloc)?,
        })
    }
}

impl Duplicate for File {
    fn duplicate(&self, alloc: Global) -> Result<File, AllocError> {
        Ok(File {
            id: self.id,
            bytes: self.bytes.duplicate(alloc)?,
            safe: self.safe,
        })
    }
}

impl Duplicate for World {
    fn duplicate(&self, alloc: Global) -> Result<World, AllocError> {
        Ok(World {
            directories: self.directories.duplicate(alloc)?,
            files: self.files.duplicate(alloc)?,
            drops: self.drops.duplicate(alloc)?,
            locks: self.locks.duplicate(alloc)?,
            ended: self.ended.duplicate(alloc)?,
        })
    }
}
