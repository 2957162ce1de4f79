// Locks of directories: the system's file locks on `.mh_lock`.
ghost use Rattle.std.specs.Prelude.{IfOk};
ghost use Rattle.folder_files.specs.Rows.{IsLockRow, IsOldRow, IsUnlockRow};

use crate::changing::{sync_kept, sync_path};
use crate::fault::{Found, HostFault, fault, looked_up, must_be_there};
use crate::kept::Kept;
use crate::paths::Paths;
use folder_files::{Answer, Place};
use std::alloc::Global;
use std::fs::{File, OpenOptions, TryLockError};
use std::os::unix::fs::OpenOptionsExt;
use std::time::Duration;
use std::{fs, thread};

#[derive(Drop)]
struct HeldLock {
    path: String,
    file: File,
}

/// The locks that this process holds; each falls where its file is closed. A directory stays open for its syncs while
/// its lock is held.
#[derive(Drop)]
pub(crate) struct HeldLocks {
    held: Vec<HeldLock>,
    open: Vec<Kept>,
}

/// The wait before the mail directory's lock is said to be another's, in milliseconds: commits of the context take
/// some.
const WAIT: u64 = 10;

/// A lock file that is there is a plain file: opening a pipe would wait.
fn open_lock(rt: &HostRuntime, path: &str) -> Result<Found<File>, HostFault> {
    if let Found::There(what) = looked_up(fs::metadata(rt, path))? {
        if !what.is_file() {
            return Err(fault("no plain file"));
        }
    }
    let mut options = OpenOptions::new();
    options.write(true);
    options.create(true);
    options.mode(0o600);
    looked_up(options.open(rt, path))
}

/// The path of a directory's lock.
fn locked_by(alloc: Global, directory: &str) -> Result<String, HostFault> {
    let mut path = String::from_str(alloc, directory)?;
    path.push_str("/.mh_lock")?;
    Ok(path)
}

fn lock_path(alloc: Global, paths: &Paths, place: &Place) -> Result<String, HostFault> {
    locked_by(alloc, paths.place(alloc, place)?.as_str())
}

impl HeldLocks {
    pub(crate) fn new(alloc: Global) -> HeldLocks {
        HeldLocks {
            held: Vec::new(alloc),
            open: Vec::new(alloc),
        }
    }

    fn has(&self, path: &str) -> bool {
        self.held.iter().any(|lock| lock.path.as_str() == path)
    }

    fn keep(&mut self, path: String, file: File) -> Result<Answer, HostFault>
        ensures { IfOk result IsLockRow }
    {
        match file.try_lock() {
            Ok(()) => {
                self.held.push(HeldLock { path, file })?;
                Ok(Answer::Done)
            }
            Err(TryLockError::WouldBlock) => Ok(Answer::Busy),
            Err(TryLockError::Error(error)) => Err(HostFault::from(error)),
        }
    }

    /// Tries once; a lock that this run has already is got again.
    pub(crate) fn lock(
        &mut self,
        rt: &HostRuntime,
        alloc: Global,
        paths: &Paths,
        place: &Place,
    ) -> Result<Answer, HostFault>
        ensures { IfOk result IsLockRow }
    {
        let path = lock_path(alloc, paths, place)?;
        if self.has(path.as_str()) {
            return Ok(Answer::Done);
        }
        match open_lock(rt, path.as_str())? {
            Found::Gone => Ok(Answer::Gone),
            found => {
                let answer = self.keep(path, must_be_there(found)?)?;
                if matches!((&answer, place), (Answer::Busy, Place::Mail(_))) {
                    thread::sleep(rt, Duration::from_millis(WAIT));
                }
                Ok(answer)
            }
        }
    }

    pub(crate) fn unlock(
        &mut self,
        alloc: Global,
        paths: &Paths,
        place: &Place,
    ) -> Result<Answer, HostFault>
        ensures { IfOk result IsUnlockRow }
    {
        let path = lock_path(alloc, paths, place)?;
        self.held.retain(|lock| lock.path.as_str() != path.as_str());
        self.forget(paths.place(alloc, place)?.as_str());
        Ok(Answer::Done)
    }

    /// Closes a directory that was kept open.
    fn forget(&mut self, path: &str) {
        self.open.retain(|kept| !kept.is_of(path));
    }

    /// Makes a directory safe that isn't open, and keeps it open where its lock is held.
    fn sync_closed(
        &mut self,
        rt: &HostRuntime,
        alloc: Global,
        path: String,
    ) -> Result<Answer, HostFault>
        ensures { IfOk result IsOldRow }
    {
        let is_locked = self.has(locked_by(alloc, path.as_str())?.as_str());
        let Found::There(file) = sync_path(rt, path.as_str())? else {
            return Ok(Answer::Gone);
        };
        if is_locked {
            let _ = self.keep_open(path, file);
        }
        Ok(Answer::Done)
    }

    fn keep_open(&mut self, path: String, file: File) -> Result<(), HostFault> {
        self.open.push(Kept::new(path, file)?)?;
        Ok(())
    }

    /// Makes a directory safe.
    pub(crate) fn sync_folder(
        &mut self,
        rt: &HostRuntime,
        alloc: Global,
        paths: &Paths,
        place: &Place,
    ) -> Result<Answer, HostFault>
        ensures { IfOk result IsOldRow }
    {
        let path = paths.place(alloc, place)?;
        let kept = self.open.iter().find(|kept| kept.is_of(path.as_str()));
        match kept {
            Some(kept) => sync_kept(rt, kept),
            None => self.sync_closed(rt, alloc, path),
        }
    }
}
