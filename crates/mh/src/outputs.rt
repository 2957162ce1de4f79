// The outputs of a call: the output, of which it is kept whether it took anything and whether its reader is gone, and
// the line of the error output, which is held until the call is known to be the last.
use mh_base::{Bytes, Sink, SinkFault};
use std::alloc::Global;
use std::io::{ErrorKind, Write};

/// How often an interrupted write is made again before it counts as a fault.
const TRIES: u32 = 1000;

/// How writing went.
#[derive(Drop)]
enum Written {
    /// So many bytes were taken.
    Some(usize),
    /// The output is a pipe whose reader is gone.
    NoReader,
    Failed,
}

/// One write, made again where it was interrupted. A write that takes nothing is a fault.
fn write_some<W: Write>(writer: &mut W, piece: &[u8]) -> Written {
    for _ in 0..TRIES {
        match writer.write(piece) {
            Ok(0) => return Written::Failed,
            Ok(count) => return Written::Some(count),
            Err(error) => match error.kind() {
                ErrorKind::Interrupted => {}
                ErrorKind::BrokenPipe => return Written::NoReader,
                _ => return Written::Failed,
            },
        }
    }
    Written::Failed
}

/// Writes the whole piece: how many bytes were taken, which are all but after a fault, and how the last write went.
fn write_whole<W: Write>(writer: &mut W, piece: &[u8]) -> (usize, Written) {
    let mut taken = 0usize;
    for _ in 0..piece.len() {
        let rest = piece.get(taken..).unwrap_or(&[]);
        if rest.is_empty() {
            break;
        }
        match write_some(writer, rest) {
            Written::Some(count) => taken = taken.saturating_add(count),
            fault => return (taken, fault),
        }
    }
    (taken, Written::Some(taken))
}

/// An output over a writer.
#[derive(Drop)]
pub struct Output<W> {
    writer: W,
    faults: u64,
    has_taken: bool,
    has_no_reader: bool,
}

impl<W: Write + Drop> Output<W> {
    pub fn new(writer: W) -> Output<W> {
        Output {
            writer,
            faults: 0,
            has_taken: false,
            has_no_reader: false,
        }
    }

    /// Whether anything was written to it.
    pub fn has_taken(&self) -> bool {
        self.has_taken
    }

    /// Whether it was a pipe whose reader is gone.
    pub fn has_no_reader(&self) -> bool {
        self.has_no_reader
    }
}

impl<W: Write + Drop> Sink for Output<W> {
    ghost use Rattle.std.specs.Prelude.{None};

    ghost state = { λ s. record { told = None; faults = s.faults } };

    fn put(&mut self, piece: &[u8]) -> Result<(), SinkFault> {
        let (taken, written) = write_whole(&mut self.writer, piece);
        self.has_taken = self.has_taken || 0 < taken;
        match written {
            Written::Some(_) => return Ok(()),
            Written::NoReader => self.has_no_reader = true,
            Written::Failed => {}
        }
        self.faults = self.faults.saturating_add(1);
        Err(SinkFault::Failed)
    }
}

/// What a call says to the error output.
#[derive(Drop)]
pub struct HeldLine {
    text: Bytes,
}

impl HeldLine {
    pub fn new(alloc: Global) -> HeldLine {
        HeldLine {
            text: Bytes::new(alloc),
        }
    }

    pub fn into_text(self) -> Bytes {
        self.text
    }
}

impl Sink for HeldLine {
    ghost use Rattle.std.specs.Prelude.{None};

    ghost state = { λ s. record { told = None; faults = 0 } };

    fn put(&mut self, piece: &[u8]) -> Result<(), SinkFault> {
        match self.text.extend(piece) {
            Ok(()) => Ok(()),
            Err(_) => Err(SinkFault::Memory),
        }
    }
}
