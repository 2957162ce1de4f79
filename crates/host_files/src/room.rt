// Room into which files are read.
ghost use Rattle.std.specs.Prelude.{◌≤◌, length as count, IfOk};

use crate::fault::{HostFault, fault};
use std::alloc::Global;
use std::fs::File;
use std::io::{ErrorKind, Read, Take};

/// One byte more than a piece of a drop, so that a file which fits is seen to end.
const ROOM: usize = 65_537;

/// How often a read may be interrupted, or give less than there is.
const TURNS: u32 = 100_000;

/// Room that is cleared once, and not anew for each file.
#[derive(Drop)]
pub(crate) struct ReadRoom {
    bytes: Vec<u8>,
}

/// What a file begins with, and whether that is all.
#[derive(Drop)]
pub(crate) struct FileFront<'a> {
    pub(crate) bytes: &'a [u8],
    pub(crate) ends: bool,
}

/// Reads until the room is full or the file ends: how many bytes came. Where so many came as the file is said to have,
/// and the last read gave less than it had room for, both say that it ends there.
fn fill(file: &mut Take<File>, room: &mut [u8], likely: u64) -> Result<usize, HostFault>
    ensures { IfOk result (λ n. n ≤ count room.new) }
{
    let mut filled = 0;
    for _ in 0..TURNS {
        match file.read(&mut room[filled..]) {
            Ok(0) => return Ok(filled),
            Ok(n) => {
                filled += n;
                if filled as u64 == likely {
                    return Ok(filled);
                }
            }
            Err(error) if error.kind() == ErrorKind::Interrupted => {}
            Err(error) => return Err(HostFault::from(error)),
        }
    }
    Err(fault("reads that do not end"))
}

impl ReadRoom {
    pub(crate) fn new(alloc: Global) -> ReadRoom {
        ReadRoom {
            bytes: Vec::new(alloc),
        }
    }

    /// Reads what a file begins with that is likely so long.
    pub(crate) fn front(
        &mut self,
        file: &mut Take<File>,
        likely: u64,
    ) -> Result<FileFront<'_>, HostFault> {
        if self.bytes.is_empty() {
            self.bytes.resize(ROOM, 0)?;
        }
        let filled = fill(file, self.bytes.as_mut_slice(), likely)?;
        let (bytes, _) = self.bytes.as_slice().split_at(filled);
        Ok(FileFront {
            bytes,
            ends: filled < ROOM,
        })
    }
}
