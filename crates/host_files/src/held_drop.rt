// A drop that this process keeps open and locked, from its first piece to its cut or the end of the call.
ghost use Rattle.std.specs.Prelude.{IfOk};
ghost use Rattle.folder_files.specs.Rows.{IsCutRow};

use crate::dot_lock::{DotLock, DotTry, Holder, dot_holder, try_dot};
use crate::drop_lock::{Try, try_flock};
use crate::fault::{Found, HostFault, changed, fault, looked_up};
use crate::same_file::{are_one, leads_to};
use folder_files::Answer;
use std::alloc::Global;
use std::fs::{File, OpenOptions};
use std::io::ErrorKind;
use std::time::Duration;
use std::{fs, io, thread};

/// How often the locks are tried that another has.
const TRIES: u32 = 480;

/// The wait behind each try, in milliseconds: not quite ten seconds for all.
const WAIT: u64 = 20;

#[derive(Drop)]
pub(crate) struct HeldDrop {
    path: String,
    file: File,
    dot: Option<DotLock>,
    /// Why it may be read and not cut.
    bar: Option<io::Error>,
}

/// An open drop, and why it may not be written.
#[derive(Drop)]
struct OpenDrop {
    file: File,
    bar: Option<io::Error>,
}

/// What a try to get all locks came to.
#[derive(Drop)]
enum Take {
    All(HeldDrop),
    Busy,
    Gone,
}

fn open_to_read(
    rt: &HostRuntime,
    path: &str,
    bar: io::Error,
) -> Result<Found<OpenDrop>, HostFault> {
    match looked_up(File::open(rt, path))? {
        Found::There(file) => Ok(Found::There(OpenDrop {
            file,
            bar: Some(bar),
        })),
        Found::Gone => Ok(Found::Gone),
        Found::Exists => Ok(Found::Exists),
    }
}

/// Opens a plain file, to read and write it where that is allowed.
fn open_drop(rt: &HostRuntime, path: &str) -> Result<Found<OpenDrop>, HostFault> {
    match looked_up(fs::metadata(rt, path))? {
        Found::There(what) if what.is_file() => {}
        Found::There(_) => return Err(fault("no plain file")),
        _ => return Ok(Found::Gone),
    }
    let mut options = OpenOptions::new();
    options.read(true);
    options.write(true);
    match options.open(rt, path) {
        Ok(file) => Ok(Found::There(OpenDrop { file, bar: None })),
        Err(error) => match error.kind() {
            ErrorKind::PermissionDenied | ErrorKind::ReadOnlyFilesystem => {
                open_to_read(rt, path, error)
            }
            ErrorKind::NotFound => Ok(Found::Gone),
            _ => Err(HostFault::from(error)),
        },
    }
}

/// The last of the locks, for who has the others. A path that leads elsewhere by now is tried again.
fn take_dot(
    rt: &HostRuntime,
    alloc: Global,
    path: &str,
    open: OpenDrop,
) -> Result<Take, HostFault> {
    let held_path = String::from_str(alloc, path)?;
    let dot = match try_dot(rt, alloc, path)? {
        DotTry::Made(dot) => Some(dot),
        DotTry::Taken => return Ok(Take::Busy),
        DotTry::Barred => None,
    };
    let held = HeldDrop {
        path: held_path,
        file: open.file,
        dot,
        bar: open.bar,
    };
    match leads_to(rt, path, &held.file) {
        Ok(Found::There(true)) => Ok(Take::All(held)),
        Ok(_) => {
            held.release(rt);
            Ok(Take::Busy)
        }
        Err(fault) => {
            held.release(rt);
            Err(fault)
        }
    }
}

/// Tries once to get all locks; who gets not all has none.
fn try_take(rt: &HostRuntime, alloc: Global, path: &str) -> Result<Take, HostFault> {
    let mut open = match open_drop(rt, path)? {
        Found::There(open) => open,
        _ => return Ok(Take::Gone),
    };
    match try_flock(&open.file, open.bar.is_some())? {
        Try::Got => {}
        Try::Busy => return Ok(Take::Busy),
        Try::Unable(error) => open.bar = Some(error),
    }
    take_dot(rt, alloc, path, open)
}

/// Says who has locked the drop, as far as that can be known.
fn locked(rt: &HostRuntime, alloc: Global, path: &str) -> Result<HostFault, HostFault> {
    let words = match dot_holder(rt, alloc, path)? {
        Some(Holder::Process(number)) => {
            format!(in alloc; "locked (DROP.lock of process {number})")?
        }
        Some(Holder::Unknown) => format!(in alloc; "locked (DROP.lock of another program)")?,
        None => format!(in alloc; "locked by another program")?,
    };
    Ok(fault(words.as_str()))
}

/// Opens a drop and locks it. Who finds others waits for them, without any lock.
pub(crate) fn take_drop(
    rt: &HostRuntime,
    alloc: Global,
    path: &str,
) -> Result<Found<HeldDrop>, HostFault> {
    for _ in 0..TRIES {
        match try_take(rt, alloc, path)? {
            Take::All(held) => return Ok(Found::There(held)),
            Take::Gone => return Ok(Found::Gone),
            Take::Busy => thread::sleep(rt, Duration::from_millis(WAIT)),
        }
    }
    Err(locked(rt, alloc, path)?)
}

impl HeldDrop {
    pub(crate) fn is_of(&self, path: &str) -> bool {
        self.path.as_str() == path
    }

    /// Another handle of the open file, and how long the file is.
    pub(crate) fn handle(&self, rt: &HostRuntime) -> Result<(File, u64), HostFault> {
        if let Some(dot) = &self.dot {
            dot.touch(rt);
        }
        let length = self.file.metadata()?.len();
        Ok((self.file.try_clone()?, length))
    }

    /// Cuts the open file to nothing where it has this length.
    fn cut_open(&self, length: u64) -> Result<Answer, HostFault>
        ensures { IfOk result IsCutRow }
    {
        if let Some(error) = self.bar {
            return Err(HostFault::Failed(error));
        }
        if self.file.metadata()?.len() != length {
            return Ok(Answer::Grown);
        }
        changed(self.file.set_len(0))?;
        changed(self.file.sync_all())?;
        Ok(Answer::Done)
    }

    /// Cuts the drop where its path leads to the open file. Where it leads elsewhere meanwhile nothing is cut: another
    /// file of this length was not read.
    pub(crate) fn cut(&self, rt: &HostRuntime, length: u64) -> Result<Answer, HostFault>
        ensures { IfOk result IsCutRow }
    {
        let Found::There(named) = looked_up(fs::metadata(rt, self.path.as_str()))? else {
            return Ok(Answer::Gone);
        };
        if are_one(&named, &self.file.metadata()?) {
            self.cut_open(length)
        } else if named.is_file() && named.len() != length {
            Ok(Answer::Grown)
        } else {
            Err(fault("another file stands there now"))
        }
    }

    /// Lets all locks go; those of the system fall last, with the file.
    pub(crate) fn release(self, rt: &HostRuntime) {
        let HeldDrop {
            path: _path,
            file: _file,
            dot,
            bar: _bar,
        } = self;
        if let Some(dot) = dot {
            dot.release(rt);
        }
    }
}
