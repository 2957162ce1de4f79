// Trials of links. A rename is allowed to whoever may write to the directory, a link is not always: so before a
// message is held aside it is seen that it can come back.
use crate::copying::{COPY, temp_beside};
use crate::fault::{HostFault, changed, fault};
use crate::new_file::create_new;
use std::alloc::Global;
use std::fs::{File, Metadata};
use std::io::ErrorKind;
use std::os::unix::fs::MetadataExt;
use std::{fs, io};

/// The temporary name of a trial; none of a run's Creates comes to it.
const TRIAL: u64 = u64::MAX - 1;

/// The system's EPERM. It says it where a link is not allowed, and where a file system has none.
const NOT_PERMITTED: i32 = 1;

/// Whether the system doesn't allow a link.
pub(crate) fn is_not_allowed(error: &io::Error) -> bool {
    error.raw_os_error() == Some(NOT_PERMITTED)
}

/// What decides whether a link to a file is allowed: of files that are alike in it one trial tells.
#[derive(Clone, Copy)]
struct Rights {
    device: u64,
    owner: u32,
    group: u32,
    mode: u32,
}

fn rights_of(what: &Metadata) -> Rights {
    Rights {
        device: what.dev(),
        owner: what.uid(),
        group: what.gid(),
        mode: what.mode(),
    }
}

fn are_alike(one: &Rights, other: &Rights) -> bool {
    one.device == other.device
        && one.owner == other.owner
        && one.group == other.group
        && one.mode == other.mode
}

/// What was seen in this run: rights with which a link went, and a device on which one of an own file did.
#[derive(Drop)]
pub(crate) struct LinkTrials {
    linked: Option<Rights>,
    own: Option<u64>,
}

/// Links and takes the link away.
fn try_link(rt: &HostRuntime, from: &str, trial: &str) -> io::Result<()> {
    fs::hard_link(rt, from, trial)?;
    fs::remove_file(rt, trial)
}

/// Sees that a file of our own can be linked.
fn try_own(rt: &HostRuntime, temp: &str, trial: &str) -> Result<(), HostFault> {
    changed(create_new(rt, temp))?;
    let linked = try_link(rt, temp, trial);
    let removed = fs::remove_file(rt, temp);
    changed(linked)?;
    changed(removed)
}

impl LinkTrials {
    pub(crate) fn new() -> LinkTrials {
        LinkTrials {
            linked: None,
            own: None,
        }
    }

    fn has_linked(&self, rights: &Rights) -> bool {
        match &self.linked {
            Some(seen) => are_alike(seen, rights),
            None => false,
        }
    }

    /// Sees that a copy can be made in the place of a link.
    fn see_copy(
        &mut self,
        rt: &HostRuntime,
        alloc: Global,
        run: u128,
        path: &str,
        what: &Metadata,
    ) -> Result<(), HostFault> {
        if !what.is_file() {
            return Err(fault("no plain file"));
        }
        let _ = File::open(rt, path)?;
        if self.own != Some(what.dev()) {
            self.see_own(rt, alloc, run, path)?;
            self.own = Some(what.dev());
        }
        Ok(())
    }

    fn see_own(
        &self,
        rt: &HostRuntime,
        alloc: Global,
        run: u128,
        path: &str,
    ) -> Result<(), HostFault> {
        let temp = temp_beside(alloc, path, run, COPY)?;
        let trial = temp_beside(alloc, path, run, TRIAL)?;
        try_own(rt, temp.as_str(), trial.as_str())
    }

    fn try_rights(
        &mut self,
        rt: &HostRuntime,
        alloc: Global,
        run: u128,
        path: &str,
        what: &Metadata,
    ) -> Result<(), HostFault> {
        let trial = temp_beside(alloc, path, run, TRIAL)?;
        match try_link(rt, path, trial.as_str()) {
            Ok(()) => {
                self.linked = Some(rights_of(what));
                Ok(())
            }
            Err(error) if is_not_allowed(&error) => self.see_copy(rt, alloc, run, path, what),
            Err(error) if error.kind() == ErrorKind::NotFound => Ok(()),
            Err(error) => Err(HostFault::Failed(error)),
        }
    }

    /// Sees that this message, which stands at this path, can come back from where it is held.
    pub(crate) fn see(
        &mut self,
        rt: &HostRuntime,
        alloc: Global,
        run: u128,
        path: &str,
        what: &Metadata,
    ) -> Result<(), HostFault> {
        if self.has_linked(&rights_of(what)) {
            return Ok(());
        }
        self.try_rights(rt, alloc, run, path, what)
    }
}
