// Which drops are open, and by which run: from its first piece on a run has the drop locked, and reads the file that it
// opened.
use folder_files::FilePath;
use mh_base::{Bytes, Duplicate};
use std::alloc::Global;
use std::test::Fail;

#[derive(Drop)]
pub struct OpenDrop {
    path: FilePath,
    /// The place of the run.
    run: usize,
    /// The bytes of the open file, where its name went away since.
    left: Option<Bytes>,
}

#[derive(Drop)]
pub struct OpenDrops {
    open: Vec<OpenDrop>,
}

impl OpenDrops {
    pub fn new(alloc: Global) -> OpenDrops {
        OpenDrops {
            open: Vec::new(alloc),
        }
    }

    fn find(&self, path: &FilePath) -> Option<&OpenDrop> {
        self.open.iter().find(|drop| drop.path.same(path))
    }

    /// The run that has this drop.
    pub fn run_of(&self, path: &FilePath) -> Option<usize> {
        Some(self.find(path)?.run)
    }

    /// The bytes of the open file, where its name went away.
    pub fn left(&self, path: &FilePath) -> Option<&Bytes> {
        self.find(path)?.left.as_ref()
    }

    /// The run has no drop.
    pub fn let_go(&mut self, run: usize) {
        self.open.retain(|drop| drop.run != run);
    }

    /// The run has this drop, and no other.
    pub fn take(&mut self, alloc: Global, run: usize, path: &FilePath) -> Result<(), Fail> {
        if self.run_of(path) == Some(run) {
            return Ok(());
        }
        self.let_go(run);
        let path = path.duplicate(alloc)?;
        let left = None;
        Ok(self.open.push(OpenDrop { path, run, left })?)
    }

    /// The name of a drop that had these bytes goes away.
    pub fn leave(&mut self, alloc: Global, path: &FilePath, bytes: &Bytes) -> Result<(), Fail> {
        for drop in self.open.iter_mut() {
            if drop.path.same(path) && drop.left.is_none() {
                drop.left = Some(bytes.duplicate(alloc)?);
            }
        }
        Ok(())
    }
}
