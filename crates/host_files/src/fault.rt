// Why a system call did not serve.
use std::alloc::{AllocError, AllocFailed};
use std::io;
use std::io::ErrorKind;

/// Failed by this error, of the system's or of words of our own; or for want of memory.
#[derive(Drop)]
pub(crate) enum HostFault {
    Failed(io::Error),
    Memory,
}

/// A fault that is no error of the system's.
pub(crate) fn fault(words: &str) -> HostFault {
    HostFault::Failed(io::Error::other(words))
}

impl From<AllocError> for HostFault {
    fn from(_: AllocError) -> Self {
        HostFault::Memory
    }
}

impl<T: Drop> From<AllocFailed<T>> for HostFault {
    fn from(_: AllocFailed<T>) -> Self {
        HostFault::Memory
    }
}

impl From<io::Error> for HostFault {
    fn from(error: io::Error) -> Self {
        if error.kind() == ErrorKind::OutOfMemory {
            HostFault::Memory
        } else {
            HostFault::Failed(error)
        }
    }
}

/// What a call gave that changes something: after an error nobody knows whether it did.
pub(crate) fn changed<T: Drop>(outcome: io::Result<T>) -> Result<T, HostFault> {
    match outcome {
        Ok(value) => Ok(value),
        Err(error) => Err(HostFault::Failed(error)),
    }
}

/// What came after a change: want of memory would say that nothing was made.
pub(crate) fn after_change<T: Drop>(outcome: Result<T, HostFault>) -> Result<T, HostFault> {
    match outcome {
        Err(HostFault::Memory) => Err(fault("out of memory")),
        outcome => outcome,
    }
}

/// What a call gave, or what its error says of the name.
#[derive(Drop)]
pub(crate) enum Found<T> {
    There(T),
    Gone,
    Exists,
}

/// Reads an error: a missing name, a name that is taken, or a fault.
pub(crate) fn looked_up<T: Drop>(outcome: io::Result<T>) -> Result<Found<T>, HostFault> {
    match outcome {
        Ok(value) => Ok(Found::There(value)),
        Err(error) => match error.kind() {
            ErrorKind::NotFound => Ok(Found::Gone),
            ErrorKind::AlreadyExists => Ok(Found::Exists),
            _ => Err(HostFault::from(error)),
        },
    }
}

/// What must be there once something else was: that it is gone, or that its name is taken, is a fault.
pub(crate) fn must_be_there<T: Drop>(found: Found<T>) -> Result<T, HostFault> {
    match found {
        Found::There(value) => Ok(value),
        Found::Gone => Err(fault("it went away meanwhile")),
        Found::Exists => Err(fault("the name is taken")),
    }
}
