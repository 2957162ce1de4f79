// `DROP.lock`: the file beside a drop under which others deliver.
use crate::fault::{Found, HostFault, looked_up};
use crate::new_file::create_new;
use crate::same_file::are_one;
use std::alloc::Global;
use std::fs::{File, Metadata, OpenOptions, TryLockError};
use std::io::{ErrorKind, Read, Write};
use std::time::SystemTime;
use std::{fs, io, process, str};

/// How old a lock of another program may be, in seconds, before it is taken for one that was left behind.
const OLD: u64 = 300;

/// What ours says behind the number of its process.
const OURS: &str = " mh";

/// A lock of ours, whose open file is locked too for as long as this process lives.
#[derive(Drop)]
pub(crate) struct DotLock {
    path: String,
    file: File,
}

/// Who has a lock, as far as it says so.
#[derive(Clone, Copy)]
pub(crate) enum Holder {
    Process(u32),
    Unknown,
}

/// What a try to make the lock came to.
#[derive(Drop)]
pub(crate) enum DotTry {
    Made(DotLock),
    Taken,
    /// The directory doesn't let it be made.
    Barred,
}

/// What a lock that is there says, and whether it was left behind. One of ours that was is locked as long as its file is
/// open here: so of all that find it one alone takes it away.
#[derive(Drop)]
struct FoundLock {
    holder: Holder,
    is_left: bool,
    file: Option<File>,
}

fn is_old(rt: &HostRuntime, modified: io::Result<SystemTime>) -> Result<bool, HostFault> {
    let now = SystemTime::now(rt)?;
    match now.duration_since(modified?) {
        Ok(age) => Ok(age.as_secs() > OLD),
        Err(_) => Ok(false),
    }
}

/// The number of a process with which a lock's text begins.
fn process_of(text: &[u8]) -> Option<u32> {
    let text = str::from_utf8(text).ok()?;
    let word = text.split_ascii_whitespace().next()?;
    word.parse::<u32>().ok()
}

/// Whether a text is one of ours.
fn is_ours(text: &[u8]) -> bool {
    match str::from_utf8(text) {
        Ok(text) => text.trim_end().ends_with(OURS),
        Err(_) => false,
    }
}

/// Whether an open lock was left behind. One of ours was where its process no longer locks the file: that falls with
/// the process, where a number could be another's by now. Another's was where it is old.
fn is_left(rt: &HostRuntime, file: &File, text: &[u8]) -> Result<bool, HostFault> {
    if is_ours(text) {
        match file.try_lock() {
            Ok(()) => return Ok(true),
            Err(TryLockError::WouldBlock) => return Ok(false),
            Err(TryLockError::Error(_)) => {}
        }
    }
    is_old(rt, file.metadata()?.modified())
}

/// What an open lock says.
fn read_lock(rt: &HostRuntime, mut file: File) -> Result<FoundLock, HostFault> {
    let mut room = [0u8; 64];
    let length = file.read(&mut room)?;
    let text = &room[..length];
    let holder = match process_of(text) {
        Some(number) if number > 0 => Holder::Process(number),
        _ => Holder::Unknown,
    };
    let is_left = is_left(rt, &file, text)?;
    Ok(FoundLock {
        holder,
        is_left,
        file: Some(file),
    })
}

/// What the age alone of a lock says.
fn aged(rt: &HostRuntime, what: &Metadata) -> Result<FoundLock, HostFault> {
    Ok(FoundLock {
        holder: Holder::Unknown,
        is_left: is_old(rt, what.modified())?,
        file: None,
    })
}

fn open_lock(rt: &HostRuntime, path: &str) -> io::Result<File> {
    let mut options = OpenOptions::new();
    options.read(true);
    options.write(true);
    options.open(rt, path)
}

/// What stands at a lock's path. What is no plain file isn't opened: opening a pipe would wait.
fn find_lock(rt: &HostRuntime, path: &str) -> Result<Found<FoundLock>, HostFault> {
    let Found::There(what) = looked_up(fs::symlink_metadata(rt, path))? else {
        return Ok(Found::Gone);
    };
    if !what.is_file() {
        return Ok(Found::There(aged(rt, &what)?));
    }
    match open_lock(rt, path) {
        Ok(file) => Ok(Found::There(read_lock(rt, file)?)),
        Err(_) => Ok(Found::There(aged(rt, &what)?)),
    }
}

/// Whether the path leads to the lock that was found there, and to no newer one.
fn stands_still(rt: &HostRuntime, path: &str, found: &FoundLock) -> Result<bool, HostFault> {
    let Some(file) = &found.file else {
        return Ok(true);
    };
    match looked_up(fs::symlink_metadata(rt, path))? {
        Found::There(named) => Ok(are_one(&named, &file.metadata()?)),
        _ => Ok(false),
    }
}

/// Takes a lock away that was left behind, where that is allowed: whether it is there still.
fn is_left_there(rt: &HostRuntime, path: &str, found: &FoundLock) -> Result<bool, HostFault> {
    if !stands_still(rt, path, found)? {
        return Ok(true);
    }
    Ok(looked_up(fs::remove_file(rt, path)).is_err())
}

/// Whether another has the lock at this path. One that was left behind is taken away.
fn is_taken(rt: &HostRuntime, path: &str) -> Result<bool, HostFault> {
    match find_lock(rt, path)? {
        Found::There(found) if found.is_left => is_left_there(rt, path, &found),
        Found::There(_) => Ok(true),
        _ => Ok(false),
    }
}

/// A new file; one of this name that a run left behind is taken away.
fn create_anew(rt: &HostRuntime, path: &str) -> io::Result<File> {
    match create_new(rt, path) {
        Err(error) if error.kind() == ErrorKind::AlreadyExists => {
            fs::remove_file(rt, path)?;
            create_new(rt, path)
        }
        outcome => outcome,
    }
}

/// Says whose the lock is, and locks its file. A lock without that is a lock: it is only taken for another program's. What it
/// says is safe before it has its name, so that one that a power cut leaves says it too.
fn sign(rt: &HostRuntime, alloc: Global, file: &mut File) -> Result<(), HostFault> {
    let number = process::id(rt.process());
    let text = format!(in alloc; "{number}{OURS}\n")?;
    let _ = file.try_lock();
    let _ = file.write_all(text.as_bytes());
    let _ = file.sync_all();
    Ok(())
}

/// Whether this error says that the directory doesn't let names be made.
fn is_barred(error: &io::Error) -> bool {
    matches!(
        error.kind(),
        ErrorKind::PermissionDenied | ErrorKind::ReadOnlyFilesystem
    )
}

/// Makes the lock where links can't be made: until it is signed it is taken for another program's.
fn make_plainly(rt: &HostRuntime, alloc: Global, path: String) -> Result<DotTry, HostFault> {
    match create_new(rt, path.as_str()) {
        Ok(mut file) => {
            sign(rt, alloc, &mut file)?;
            Ok(DotTry::Made(DotLock { path, file }))
        }
        Err(error) if error.kind() == ErrorKind::AlreadyExists => Ok(DotTry::Taken),
        Err(error) if is_barred(&error) => Ok(DotTry::Barred),
        Err(error) => Err(HostFault::from(error)),
    }
}

/// Makes the lock by a link to a file that is signed already, so that one that a kill leaves always says whose it was.
fn make(rt: &HostRuntime, alloc: Global, path: String) -> Result<DotTry, HostFault> {
    let mut signed = String::from_str(alloc, path.as_str())?;
    signed.push_str(".mh")?;
    let mut file = match create_anew(rt, signed.as_str()) {
        Ok(file) => file,
        Err(error) if is_barred(&error) => return Ok(DotTry::Barred),
        Err(error) => return Err(HostFault::from(error)),
    };
    let is_signed = sign(rt, alloc, &mut file);
    let linked = fs::hard_link(rt, signed.as_str(), path.as_str());
    fs::remove_file(rt, signed.as_str())?;
    is_signed?;
    match linked {
        Ok(()) => Ok(DotTry::Made(DotLock { path, file })),
        Err(error) if error.kind() == ErrorKind::AlreadyExists => Ok(DotTry::Taken),
        Err(_) => make_plainly(rt, alloc, path),
    }
}

/// The path of a drop's lock.
fn beside(alloc: Global, drop_path: &str) -> Result<String, HostFault> {
    let mut path = String::from_str(alloc, drop_path)?;
    path.push_str(".lock")?;
    Ok(path)
}

/// Tries to lock the drop at this path.
pub(crate) fn try_dot(
    rt: &HostRuntime,
    alloc: Global,
    drop_path: &str,
) -> Result<DotTry, HostFault> {
    let path = beside(alloc, drop_path)?;
    if is_taken(rt, path.as_str())? {
        return Ok(DotTry::Taken);
    }
    make(rt, alloc, path)
}

/// Who has locked the drop at this path by such a file.
pub(crate) fn dot_holder(
    rt: &HostRuntime,
    alloc: Global,
    drop_path: &str,
) -> Result<Option<Holder>, HostFault> {
    let path = beside(alloc, drop_path)?;
    match find_lock(rt, path.as_str())? {
        Found::There(found) => Ok(Some(found.holder)),
        _ => Ok(None),
    }
}

impl DotLock {
    /// Shows others that the lock isn't an old one.
    pub(crate) fn touch(&self, rt: &HostRuntime) {
        if let Ok(now) = SystemTime::now(rt) {
            let _ = self.file.set_modified(now);
        }
    }

    /// Whether the file at the lock's path is this one still.
    fn is_ours_still(&self, rt: &HostRuntime) -> Result<bool, HostFault> {
        let named = fs::symlink_metadata(rt, self.path.as_str())?;
        Ok(are_one(&named, &self.file.metadata()?))
    }

    /// Takes the lock away, but not one that another made in its place.
    pub(crate) fn release(self, rt: &HostRuntime) {
        if matches!(self.is_ours_still(rt), Ok(true)) {
            let _ = fs::remove_file(rt, self.path.as_str());
        }
    }
}
