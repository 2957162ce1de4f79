// Streams of the system: thin adapters that count their errors and tell nothing of content.
ghost use Rattle.std.specs.Prelude.{◌<◌, ◌≤◌, IfSome, length, None};

use crate::{Bytes, Sink, SinkFault, Source, SourceFault};
use std::alloc::Global;
use std::io::{ErrorKind, Read, Write};

/// How often an interrupted call is made again before it counts as a fault.
const TRIES: u32 = 1000;

/// An input over a reader, as standard input.
#[derive(Drop)]
pub struct StdSource<R> {
    reader: R,
    faults: u64,
}

impl<R: Read + Drop> StdSource<R> {
    pub fn new(reader: R) -> StdSource<R> {
        StdSource { reader, faults: 0 }
    }
}

/// One read, made again where it was interrupted.
fn read_some<R: Read>(reader: &mut R, buffer: &mut [u8]) -> Option<usize>
    ensures { IfSome result (λ n. n ≤ length buffer.old) }
{
    for _ in 0..TRIES {
        match reader.read(buffer) {
            Ok(count) => return Some(count),
            Err(error) => {
                if error.kind() != ErrorKind::Interrupted {
                    return None;
                }
            }
        }
    }
    None
}

impl<R: Read + Drop> Source for StdSource<R> {
    ghost state = { λ s. record { left = None; faults = s.faults } };

    fn read(&mut self, alloc: Global, most: usize) -> Result<Bytes, SourceFault> {
        let Ok(mut buffer) = vec![in alloc; 0u8; most] else {
            return Err(SourceFault::Memory);
        };
        match read_some(&mut self.reader, &mut buffer) {
            Some(count) => {
                buffer.truncate(count);
                Ok(Bytes::from_vec(buffer))
            }
            None => {
                self.faults = self.faults.saturating_add(1);
                Err(SourceFault::Failed)
            }
        }
    }
}

/// An output over a writer, as standard output and standard error.
#[derive(Drop)]
pub struct StdSink<W> {
    writer: W,
    faults: u64,
}

impl<W: Write + Drop> StdSink<W> {
    pub fn new(writer: W) -> StdSink<W> {
        StdSink { writer, faults: 0 }
    }
}

/// One write, made again where it was interrupted. A write that takes nothing is a fault.
fn write_some<W: Write>(writer: &mut W, piece: &[u8]) -> Option<usize>
    ensures { IfSome result (λ n. (0 < n) × (n ≤ length piece.now)) }
{
    for _ in 0..TRIES {
        match writer.write(piece) {
            Ok(0) => return None,
            Ok(count) => return Some(count),
            Err(error) => {
                if error.kind() != ErrorKind::Interrupted {
                    return None;
                }
            }
        }
    }
    None
}

fn write_whole<W: Write>(writer: &mut W, piece: &[u8]) -> bool {
    let mut rest = piece;
    while !rest.is_empty() {
        match write_some(writer, rest) {
            Some(count) => rest = &rest[count..],
            None => return false,
        }
    }
    true
}

impl<W: Write + Drop> Sink for StdSink<W> {
    ghost state = { λ s. record { told = None; faults = s.faults } };

    fn put(&mut self, piece: &[u8]) -> Result<(), SinkFault> {
        if write_whole(&mut self.writer, piece) {
            Ok(())
        } else {
            self.faults = self.faults.saturating_add(1);
            Err(SinkFault::Failed)
        }
    }
}
