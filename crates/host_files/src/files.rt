// Real directories.
ghost use Rattle.std.specs.Prelude.{◌≡◌, IfOk, None};
ghost use Rattle.folder_files.specs.Rows.{IsAnswerOf};
ghost use Rattle.folder_files.specs.Story.{Counts};

use crate::changing::{create, sync_file};
use crate::drops::Drops;
use crate::fault::HostFault;
use crate::kept::Kept;
use crate::link_trials::LinkTrials;
use crate::linking::{link, rename};
use crate::listed::LastListing;
use crate::locks::HeldLocks;
use crate::making::make_folder;
use crate::paths::Paths;
use crate::reading;
use crate::room::ReadRoom;
use crate::told::{failed_line, meddled_line};
use crate::unlinking::unlink;
use folder_files::{Answer, Files, Step};
use mh_base::{Bytes, Duplicate};
use std::alloc::{AllocError, Global};
use std::io;

/// Real directories, by the system's calls. They tell no story: that their steps are those of
/// docs/NO-LOSS.md is trusted. Their count of faults rises at each Failed that they answer.
#[derive(Drop)]
pub struct HostFiles {
    rt: HostRuntime,
    paths: Paths,
    locks: HeldLocks,
    room: ReadRoom,
    last: LastListing,
    drops: Drops,
    made: Option<Kept>,
    trials: LinkTrials,
    failed: Option<String>,
    meddled: Option<String>,
    faults: u64,
}

fn copied(alloc: Global, line: &Option<String>) -> Result<Option<String>, AllocError> {
    match line {
        Some(line) => Ok(Some(String::from_str(alloc, line.as_str())?)),
        None => Ok(None),
    }
}

impl HostFiles {
    /// Files whose home directory is this; the current directory is the process's.
    pub fn open(rt: HostRuntime, alloc: Global, home: Bytes) -> Result<HostFiles, AllocError> {
        Ok(HostFiles {
            rt,
            paths: Paths::new(home.duplicate(alloc)?),
            locks: HeldLocks::new(alloc),
            room: ReadRoom::new(alloc),
            last: LastListing::new(alloc)?,
            drops: Drops::new(),
            made: None,
            trials: LinkTrials::new(),
            failed: None,
            meddled: None,
            faults: 0,
        })
    }

    /// One line without its end on the last step that was answered Failed: its path, and the system's error in words.
    /// It has no control characters.
    pub fn failure_line(&self, alloc: Global) -> Result<Option<String>, AllocError> {
        copied(alloc, &self.failed)
    }

    /// The same of what stands behind an answer Gone or Exists that has a cause by hand, as a link that leads nowhere.
    pub fn meddled_line(&self, alloc: Global) -> Result<Option<String>, AllocError> {
        copied(alloc, &self.meddled)
    }

    /// Lets go of the drop and of all locks. A call that ends without it leaves `DROP.lock` to the next one.
    pub fn close(mut self) {
        self.drops.release(&self.rt);
    }

    fn answer(&mut self, alloc: Global, run: u128, step: &Step) -> Result<Answer, HostFault>
        ensures row { IfOk result (λ a. IsAnswerOf step.now a) }
        ensures count { self.new.faults ≡ self.old.faults }
    {
        let rt = &self.rt;
        match step {
            Step::List(place) => reading::list(rt, alloc, &self.paths, &mut self.last, place),
            Step::Read(place, name, limit) => {
                reading::read(
                    rt,
                    alloc,
                    &self.paths,
                    &mut self.room,
                    &self.last,
                    place,
                    name,
                    *limit,
                )
            }
            Step::ReadFile(path, limit) => {
                reading::read_file(rt, alloc, &self.paths, &mut self.room, path, *limit)
            }
            Step::ReadDrop { path, from, most } => {
                self.drops
                    .read(rt, alloc, &self.paths, &mut self.room, path, *from, *most)
            }
            Step::MakeFolder(place) => make_folder(rt, alloc, &self.paths, place),
            Step::Create(place, name, bytes) => {
                create(rt, alloc, &self.paths, &mut self.made, place, name, bytes)
            }
            Step::SyncFile(place, name) => {
                sync_file(rt, alloc, &self.paths, &mut self.made, place, name)
            }
            Step::SyncFolder(place) => self.locks.sync_folder(rt, alloc, &self.paths, place),
            Step::Link(place, from, to) => { link(rt, alloc, &self.paths, run, place, from, to) }
            Step::Rename(place, from, to) => {
                rename(
                    rt,
                    alloc,
                    &self.paths,
                    &mut self.trials,
                    run,
                    place,
                    from,
                    to,
                )
            }
            Step::Unlink(place, name) => unlink(rt, alloc, &self.paths, place, name),
            Step::CutDrop(path, length) => { self.drops.cut(rt, alloc, &self.paths, path, *length) }
            Step::Lock(place) => self.locks.lock(rt, alloc, &self.paths, place),
            Step::Unlock(place) => self.locks.unlock(alloc, &self.paths, place),
        }
    }
}

impl HostFiles {
    fn note_failure(&mut self, alloc: Global, step: &Step, error: &io::Error)
        ensures { self.new.faults ≡ self.old.faults }
    {
        self.failed = failed_line(alloc, &self.paths, step, error);
    }

    fn note_answer(&mut self, alloc: Global, step: &Step, answer: &Answer)
        ensures { self.new.faults ≡ self.old.faults }
    {
        if let Some(line) = meddled_line(&self.rt, alloc, &self.paths, step, answer) {
            self.meddled = Some(line);
        }
    }

    /// Raises the count of faults at Failed.
    fn counted(&mut self, answer: Answer) -> Answer
        ensures same { result ≡ answer }
        ensures cause { Counts self.old.faults self.new.faults answer }
    {
        match answer {
            Answer::Failed => {
                self.faults = self.faults.saturating_add(1);
                Answer::Failed
            }
            answer => answer,
        }
    }
}

impl Files for HostFiles {
    ghost state = { λ s. record { story = None; faults = s.faults } };

    fn act(&mut self, alloc: Global, run: u128, step: &Step) -> Result<Answer, AllocError> {
        let answer = match self.answer(alloc, run, step) {
            Ok(answer) => {
                self.note_answer(alloc, step, &answer);
                answer
            }
            Err(HostFault::Failed(error)) => {
                self.note_failure(alloc, step, &error);
                Answer::Failed
            }
            Err(HostFault::Memory) => return Err(AllocError),
        };
        Ok(self.counted(answer))
    }
}
