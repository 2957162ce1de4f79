// Steps and their answers.

ghost use Rattle.std.specs.Prelude.{◌≡◌, IfOk};

use crate::{FilePath, Place};
use mh_base::{Bytes, Duplicate, Name, NameList};
use std::alloc::{AllocError, Global};

/// One step on the files: a directory changes by such steps alone.
#[derive(Drop)]
pub enum Step {
    /// The names in a directory, in byte order.
    List(Place),
    /// A file's bytes, where they are at most so many.
    Read(Place, Name, u64),
    /// Makes a directory and its missing parents.
    MakeFolder(Place),
    /// A name leads to a new file with these bytes.
    Create(Place, Name, Bytes),
    /// A file's bytes outlast a crash.
    SyncFile(Place, Name),
    /// All changes of a directory so far outlast a crash.
    SyncFolder(Place),
    /// The second name leads to the first one's file too.
    Link(Place, Name, Name),
    /// The second name leads to the first one's file and the first is gone, in one change.
    Rename(Place, Name, Name),
    /// A name is gone.
    Unlink(Place, Name),
    /// This run holds the directory's lock.
    Lock(Place),
    /// The lock falls.
    Unlock(Place),
    /// An outside file's bytes, where they are at most so many.
    ReadFile(FilePath, u64),
    /// A piece of an outside file, from a place on, of at most so many bytes.
    ReadDrop {
        path: FilePath,
        from: u64,
        most: u64,
    },
    /// An outside file of this length is cut to nothing.
    CutDrop(FilePath, u64),
}

/// What a step is answered.
#[derive(Drop)]
pub enum Answer {
    Done,
    Names(NameList),
    Content(Bytes),
    /// A piece and the length of the whole file.
    Piece { bytes: Bytes, length: u64 },
    /// The file is longer than was asked for: its length.
    Long(u64),
    /// There is no such name, file or directory.
    Gone,
    /// The name is taken.
    Exists,
    /// Another run holds the lock.
    Busy,
    /// The file has another length.
    Grown,
    /// The files failed; their count of faults rose.
    Failed,
}

impl Duplicate for Step {
    fn duplicate(&self, alloc: Global) -> Result<Step, AllocError> {
        match self {
            Step::List(place) => Ok(Step::List(place.duplicate(alloc)?)),
            Step::Read(place, name, limit) => {
                Ok(Step::Read(place.duplicate(alloc)?, name.duplicate(alloc)?, *limit))
            }
            Step::MakeFolder(place) => Ok(Step::MakeFolder(place.duplicate(alloc)?)),
            Step::Create(place, name, bytes) => Ok(Step::Create(
                place.duplicate(alloc)?,
                name.duplicate(alloc)?,
                bytes.duplicate(alloc)?,
            )),
            Step::SyncFile(place, name) => {
                Ok(Step::SyncFile(place.duplicate(alloc)?, name.duplicate(alloc)?))
            }
            Step::SyncFolder(place) => Ok(Step::SyncFolder(place.duplicate(alloc)?)),
            Step::Link(place, from, to) => Ok(Step::Link(
                place.duplicate(alloc)?,
                from.duplicate(alloc)?,
                to.duplicate(alloc)?,
            )),
            Step::Rename(place, from, to) => Ok(Step::Rename(
                place.duplicate(alloc)?,
                from.duplicate(alloc)?,
                to.duplicate(alloc)?,
            )),
            Step::Unlink(place, name) => {
                Ok(Step::Unlink(place.duplicate(alloc)?, name.duplicate(alloc)?))
            }
            Step::Lock(place) => Ok(Step::Lock(place.duplicate(alloc)?)),
            Step::Unlock(place) => Ok(Step::Unlock(place.duplicate(alloc)?)),
            Step::ReadFile(path, limit) => Ok(Step::ReadFile(path.duplicate(alloc)?, *limit)),
            Step::ReadDrop { path, from, most } => Ok(Step::ReadDrop {
                path: path.duplicate(alloc)?,
                from: *from,
                most: *most,
            }),
            Step::CutDrop(path, length) => Ok(Step::CutDrop(path.duplicate(alloc)?, *length)),
        }
    }
}

impl Duplicate for Answer {
    fn duplicate(&self, alloc: Global) -> Result<Answer, AllocError> {
        match self {
            Answer::Done => Ok(Answer::Done),
            Answer::Names(names) => Ok(Answer::Names(names.duplicate(alloc)?)),
            Answer::Content(bytes) => Ok(Answer::Content(bytes.duplicate(alloc)?)),
            Answer::Piece { bytes, length } => Ok(Answer::Piece {
                bytes: bytes.duplicate(alloc)?,
                length: *length,
            }),
            Answer::Long(length) => Ok(Answer::Long(*length)),
            Answer::Gone => Ok(Answer::Gone),
            Answer::Exists => Ok(Answer::Exists),
            Answer::Busy => Ok(Answer::Busy),
            Answer::Grown => Ok(Answer::Grown),
            Answer::Failed => Ok(Answer::Failed),
        }
    }
}
