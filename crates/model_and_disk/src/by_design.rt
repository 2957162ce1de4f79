// Where real directories differ from the model by design (docs/DISK.md, "The model beside the disk"): what the step is
// answered there in place of the model's answer. None of these steps changes anything.
use crate::meddled::{Leads, Meddled};
use crate::model::led;
use crate::open_drops::OpenDrops;
use folder_files::{Answer, FilePath, Outside, Place, Step, World};
use mh_base::{Bytes, Name};
use std::alloc::Global;
use std::test::Fail;

/// What stands on the disk beside the model's world.
#[derive(Drop, Clone, Copy)]
pub struct Beside<'a> {
    pub world: &'a World,
    pub meddled: &'a Meddled,
    pub drops: &'a OpenDrops,
}

fn is_text(name: &Name) -> bool {
    std::str::from_utf8(name.bytes()).is_ok()
}

/// A name that is no UTF-8 can't be asked for: Failed.
fn without_text(step: &Step) -> Option<Answer> {
    let are_text = match step {
        Step::Read(_, name, _)
        | Step::Create(_, name, _)
        | Step::SyncFile(_, name)
        | Step::Unlink(_, name) => is_text(name),
        Step::Link(_, from, to) | Step::Rename(_, from, to) => is_text(from) && is_text(to),
        _ => true,
    };
    if are_text { None } else { Some(Answer::Failed) }
}

/// What stands under two names of a step.
#[derive(Clone, Copy)]
struct TwoNames {
    from_directory: bool,
    to_directory: bool,
    from_file: bool,
    to_file: bool,
}

/// A directory is never linked, and never renamed; its name is taken.
fn link_of(names: TwoNames) -> Option<Answer> {
    if names.from_directory {
        if names.to_directory || names.to_file {
            Some(Answer::Exists)
        } else {
            Some(Answer::Failed)
        }
    } else if names.to_directory && names.from_file {
        Some(Answer::Exists)
    } else {
        None
    }
}

fn rename_of(names: TwoNames) -> Option<Answer> {
    if names.from_directory || (names.to_directory && names.from_file) {
        Some(Answer::Failed)
    } else {
        None
    }
}

impl Beside<'_> {
    fn two_names(
        &self,
        alloc: Global,
        place: &Place,
        from: &Name,
        to: &Name,
    ) -> Result<TwoNames, Fail> {
        Ok(TwoNames {
            from_directory: self.meddled.has_directory(place, from),
            to_directory: self.meddled.has_directory(place, to),
            from_file: led(alloc, self.world, place, from)?.is_some(),
            to_file: led(alloc, self.world, place, to)?.is_some(),
        })
    }

    fn at_directory(&self, place: &Place, name: &Name, answer: Answer) -> Option<Answer> {
        if self.meddled.has_directory(place, name) {
            Some(answer)
        } else {
            None
        }
    }

    /// The name of a directory is no name of the model's, but nothing can be made there: it can't be read or unlinked,
    /// and a sync is one of the directory.
    fn on_directories(&self, alloc: Global, step: &Step) -> Result<Option<Answer>, Fail> {
        match step {
            Step::Read(place, name, _) | Step::Unlink(place, name) => {
                Ok(self.at_directory(place, name, Answer::Failed))
            }
            Step::Create(place, name, _) => Ok(self.at_directory(place, name, Answer::Exists)),
            Step::SyncFile(place, name) => Ok(self.at_directory(place, name, Answer::Done)),
            Step::Link(place, from, to) => Ok(link_of(self.two_names(alloc, place, from, to)?)),
            Step::Rename(place, from, to) => Ok(rename_of(self.two_names(alloc, place, from, to)?)),
            _ => Ok(None),
        }
    }

    fn leads(&self, alloc: Global, place: &Place, name: &Name) -> Result<Option<Leads>, Fail> {
        let file = led(alloc, self.world, place, name)?;
        Ok(self.meddled.leads(file))
    }

    /// A symbolic link is a name, but what is read and synced is where it leads: nowhere, that is Gone; at a directory,
    /// the reading fails.
    fn on_links(&self, alloc: Global, step: &Step) -> Result<Option<Answer>, Fail> {
        match step {
            Step::Read(place, name, _) => match self.leads(alloc, place, name)? {
                Some(Leads::Nowhere) => Ok(Some(Answer::Gone)),
                Some(Leads::ToDirectory) => Ok(Some(Answer::Failed)),
                _ => Ok(None),
            },
            Step::SyncFile(place, name) => match self.leads(alloc, place, name)? {
                Some(Leads::Nowhere) => Ok(Some(Answer::Gone)),
                _ => Ok(None),
            },
            _ => Ok(None),
        }
    }

    fn outside(&self, path: &FilePath) -> Option<&Outside> {
        let drops = self.world.drops.as_slice();
        drops.iter().find(|outside| outside.path.same(path))
    }

    /// Another file of the length that is to be cut stands where the open one stood: it was not read.
    fn is_another(&self, path: &FilePath, length: u64) -> bool {
        match self.outside(path) {
            Some(outside) => outside.bytes.len() as u64 == length,
            None => false,
        }
    }

    /// A drop stays open from its first piece on: once its name is gone its pieces are those of the open file, and
    /// nothing else is cut.
    fn on_drops(&self, alloc: Global, step: &Step) -> Result<Option<Answer>, Fail> {
        match step {
            Step::ReadDrop { path, from, most } => match self.drops.left(path) {
                Some(left) => Ok(Some(piece_of(alloc, left, *from, *most)?)),
                None => Ok(None),
            },
            Step::CutDrop(path, length) => {
                if self.drops.left(path).is_some() && self.is_another(path, *length) {
                    Ok(Some(Answer::Failed))
                } else {
                    Ok(None)
                }
            }
            _ => Ok(None),
        }
    }

    /// The answer of the disk, where it isn't the model's by design.
    pub fn answer(&self, alloc: Global, step: &Step) -> Result<Option<Answer>, Fail> {
        if let Some(answer) = without_text(step) {
            return Ok(Some(answer));
        }
        if let Some(answer) = self.on_directories(alloc, step)? {
            return Ok(Some(answer));
        }
        match self.on_links(alloc, step)? {
            Some(answer) => Ok(Some(answer)),
            None => self.on_drops(alloc, step),
        }
    }
}

/// A piece of these bytes.
fn piece_of(alloc: Global, bytes: &Bytes, from: u64, most: u64) -> Result<Answer, Fail> {
    let length = bytes.len() as u64;
    let start = from.min(length) as usize;
    let rest = &bytes.as_slice()[start..];
    let end = most.min(rest.len() as u64) as usize;
    Ok(Answer::Piece {
        bytes: Bytes::from_slice(alloc, &rest[..end])?,
        length,
    })
}
