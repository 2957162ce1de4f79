// The input, which may be given again to the next try of a call.
ghost use Rattle.std.specs.Prelude.{◌≤◌, IfOk, IfSome, IsErrOf, None, length};
ghost use Rattle.mh_base.specs.Counts.{Rose};

use mh_base::{Bytes, Source, SourceFault, StdSource};
use std::alloc::{AllocError, Global};
use std::io::Read;

/// What an input gave, where that may be asked for again.
#[derive(Drop)]
struct Kept {
    is_kept: bool,
    bytes: Bytes,
    /// How much of it this try has read.
    read: usize,
    /// Whether a fault came behind it.
    has_failed: bool,
}

impl Kept {
    /// What this try has not read yet of what is kept.
    fn next(&mut self, alloc: Global, most: usize) -> Result<Option<Bytes>, AllocError>
        ensures short { IfOk result (λ piece. IfSome piece (λ bytes. length bytes ≤ most)) }
    {
        let left = self.bytes.as_slice().get(self.read..).unwrap_or(&[]);
        if left.is_empty() {
            return Ok(None);
        }
        let count = most.min(left.len());
        let piece = Bytes::from_slice(alloc, &left[..count])?;
        self.read = self.read.saturating_add(count);
        Ok(Some(piece))
    }

    /// Keeps a piece: whether there was memory for it.
    fn keep(&mut self, piece: &Bytes) -> bool {
        if !self.is_kept {
            return true;
        }
        let is_there = self.bytes.extend(piece.as_slice()).is_ok();
        self.read = self.bytes.len();
        is_there
    }
}

/// An input that keeps what it gave, where it may be asked for again.
#[derive(Drop)]
pub struct KeptInput<R> {
    source: StdSource<R>,
    kept: Kept,
    faults: u64,
}

impl<R: Read + Drop> KeptInput<R> {
    fn new(alloc: Global, reader: R, is_kept: bool) -> KeptInput<R> {
        KeptInput {
            source: StdSource::new(reader),
            kept: Kept {
                is_kept,
                bytes: Bytes::new(alloc),
                read: 0,
                has_failed: false,
            },
            faults: 0,
        }
    }

    /// An input that is read once.
    pub fn once(alloc: Global, reader: R) -> KeptInput<R> {
        KeptInput::new(alloc, reader, false)
    }

    /// An input that may be given again.
    pub fn again_and_again(alloc: Global, reader: R) -> KeptInput<R> {
        KeptInput::new(alloc, reader, true)
    }

    /// Begins anew.
    pub fn begin_anew(&mut self) {
        self.kept.read = 0;
    }

    /// What the reader gives next.
    fn fresh(&mut self, alloc: Global, most: usize) -> Result<Bytes, SourceFault>
        requires { 1 ≤ most }
        ensures short { IfOk result (λ piece. length piece ≤ most) }
        ensures later { self.old.faults ≤ self.new.faults }
        ensures cause { IsErrOf result SourceFault.Failed → Rose self.old.faults self.new.faults }
    {
        if self.kept.has_failed {
            self.faults = self.faults.saturating_add(1);
            return Err(SourceFault::Failed);
        }
        match self.source.read(alloc, most) {
            Ok(piece) => {
                if self.kept.keep(&piece) {
                    Ok(piece)
                } else {
                    Err(SourceFault::Memory)
                }
            }
            Err(SourceFault::Failed) => {
                self.kept.has_failed = self.kept.is_kept;
                self.faults = self.faults.saturating_add(1);
                Err(SourceFault::Failed)
            }
            Err(SourceFault::Memory) => Err(SourceFault::Memory),
        }
    }
}

impl<R: Read + Drop> Source for KeptInput<R> {
    ghost state = { λ s. record { left = None; faults = s.faults } };

    fn read(&mut self, alloc: Global, most: usize) -> Result<Bytes, SourceFault> {
        match self.kept.next(alloc, most) {
            Ok(Some(piece)) => Ok(piece),
            Ok(None) => self.fresh(alloc, most),
            Err(_) => Err(SourceFault::Memory),
        }
    }
}
