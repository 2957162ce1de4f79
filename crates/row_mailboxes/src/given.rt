// The mailbox that is given.
use crate::files::{GivenFile, directory, text_by};
use folder_files::{
    DirectoryList, FileList, FilePath, Held, LockList, Outside, OutsideList, Place, RunList, World,
};
use folder_room::{Keep, KeepList};
use mh_base::{Bytes, Duplicate, NumberList};
use std::alloc::Global;
use std::test::Fail;

#[derive(Drop)]
struct GivenPlace {
    place: Place,
    files: Vec<GivenFile>,
}

/// Directories with their files, files outside, and locks of other runs.
#[derive(Drop)]
pub struct Given {
    alloc: Global,
    mail: Bytes,
    places: Vec<GivenPlace>,
    drops: OutsideList,
    locks: LockList,
}

/// Of the directory these changes.
fn keep_of(alloc: Global, place: &Place, changes: &NumberList) -> Result<Keep, Fail> {
    Ok(Keep {
        place: place.duplicate(alloc)?,
        changes: changes.duplicate(alloc)?,
    })
}

impl Given {
    /// Nothing is there.
    pub fn new(alloc: Global) -> Result<Given, Fail> {
        Ok(Given {
            alloc,
            mail: Bytes::from_slice(alloc, b"Mail")?,
            places: Vec::new(alloc),
            drops: OutsideList::new(alloc),
            locks: LockList::new(alloc),
        })
    }

    /// The path of the mail directory.
    pub fn mail(&self) -> &Bytes {
        &self.mail
    }

    pub(crate) fn alloc(&self) -> Global {
        self.alloc
    }

    pub(crate) fn set_mail(&mut self, path: &[u8]) -> Result<(), Fail> {
        self.mail = Bytes::from_slice(self.alloc, path)?;
        Ok(())
    }

    /// The directory is there.
    pub(crate) fn add_place(&mut self, place: Place) -> Result<(), Fail> {
        let files = Vec::new(self.alloc);
        self.places.push(GivenPlace { place, files })?;
        Ok(())
    }

    /// The directory that was given last has this file.
    pub(crate) fn add_file(&mut self, file: GivenFile) -> Result<(), Fail> {
        match self.places.last_mut() {
            Some(last) => Ok(last.files.push(file)?),
            None => Err("a directory".into()),
        }
    }

    /// A file outside, whose bytes are those of these words together.
    pub(crate) fn add_outside(&mut self, path: FilePath, words: &[Bytes]) -> Result<(), Fail> {
        let bytes = joined(self.alloc, words)?;
        self.drops.push(Outside { path, bytes })?;
        Ok(())
    }

    pub(crate) fn add_lock(&mut self, place: Place, run: u128) -> Result<(), Fail> {
        self.locks.push(Held { place, run })?;
        Ok(())
    }

    fn directories(&self, files: &mut FileList) -> Result<DirectoryList, Fail> {
        let mut directories = DirectoryList::new(self.alloc);
        for one in self.places.iter() {
            let files = directory(self.alloc, &one.place, one.files.as_slice(), files)?;
            directories.push(files)?;
        }
        Ok(directories)
    }

    /// A world without pending changes that has all this.
    pub fn world(&self) -> Result<World, Fail> {
        let mut files = FileList::new(self.alloc);
        let directories = self.directories(&mut files)?;
        Ok(World {
            directories,
            files,
            drops: self.drops.duplicate(self.alloc)?,
            locks: self.locks.duplicate(self.alloc)?,
            ended: RunList::new(self.alloc),
        })
    }

    /// Of each directory these changes.
    pub(crate) fn keep(&self, changes: &NumberList) -> Result<KeepList, Fail> {
        let mut keep = KeepList::new(self.alloc);
        for one in self.places.iter() {
            keep.push(keep_of(self.alloc, &one.place, changes)?)?;
        }
        Ok(keep)
    }
}

/// The bytes of these words, one behind the other.
fn joined(alloc: Global, words: &[Bytes]) -> Result<Bytes, Fail> {
    let mut bytes = Bytes::new(alloc);
    for word in words {
        bytes.extend(text_by(alloc, word.as_slice())?.as_slice())?;
    }
    Ok(bytes)
}
