// The system's lock on an open drop, under which others deliver (`flock`). The one of `fcntl` can't be had here: of the kit's
// libraries only one that reaches past the handles has it.
use crate::fault::HostFault;
use std::fs::{File, TryLockError};
use std::io;
use std::io::ErrorKind;

/// What a try to lock came to.
#[derive(Drop)]
pub(crate) enum Try {
    Got,
    Busy,
    /// There are no such locks here.
    Unable(io::Error),
}

/// Whether this error says that a file system has no such locks, and not that something failed.
fn is_unable(error: &io::Error) -> bool {
    match error.raw_os_error() {
        Some(code) => error.kind() == ErrorKind::Unsupported || code == NO_LOCKS,
        None => false,
    }
}

/// The system's ENOLCK.
const NO_LOCKS: i32 = 37;

fn refused(error: io::Error) -> Result<Try, HostFault> {
    if error.kind() == ErrorKind::WouldBlock {
        Ok(Try::Busy)
    } else if is_unable(&error) {
        Ok(Try::Unable(error))
    } else {
        Err(HostFault::from(error))
    }
}

/// Tries the lock, a shared one where the drop may only be read. It falls where the file is closed.
pub(crate) fn try_flock(file: &File, is_shared: bool) -> Result<Try, HostFault> {
    let outcome = if is_shared {
        file.try_lock_shared()
    } else {
        file.try_lock()
    };
    match outcome {
        Ok(()) => Ok(Try::Got),
        Err(TryLockError::WouldBlock) => Ok(Try::Busy),
        Err(TryLockError::Error(error)) => refused(error),
    }
}
