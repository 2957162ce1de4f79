// The input and the outputs of a command.
ghost use Rattle.std.specs.Prelude.{◌≤◌, IfOk, IsErrOf, length};
ghost use Rattle.mh_base.specs.Counts.{Rose};
ghost use Rattle.mh_base.specs.Streams.{SourceState, SinkState, Reads, Puts};

use crate::Bytes;
use std::alloc::Global;
use thiserror::Error;

/// Why nothing was read.
#[derive(Debug, PartialEq, Eq, Drop, Error)]
pub enum SourceFault {
    /// The source failed; its count of faults rose.
    #[error("input failed")]
    Failed,
    #[error("out of memory")]
    Memory,
}

/// Why a piece was not put, or not whole.
#[derive(Debug, PartialEq, Eq, Drop, Error)]
pub enum SinkFault {
    /// The sink failed; its count of faults rose. A part of the piece was appended.
    #[error("output failed")]
    Failed,
    /// Nothing was appended.
    #[error("out of memory")]
    Memory,
}

/// An input. Its count of faults never falls.
pub trait Source {
    /// The bytes that are left, where they are told, and the count of faults.
    ghost state: { Self → SourceState };

    /// Reads at most `most` bytes. The empty piece is the end of the input.
    fn read(&mut self, alloc: Global, most: usize) -> Result<Bytes, SourceFault>
        requires { 1 ≤ most }
        ensures piece { Reads (state self.old).left (state self.new).left result }
        ensures short { IfOk result (λ piece. length piece ≤ most) }
        ensures later { (state self.old).faults ≤ (state self.new).faults }
        ensures cause { IsErrOf result SourceFault.Failed → Rose (state self.old).faults (state self.new).faults };
}

/// An output. Its count of faults never falls.
pub trait Sink {
    /// The bytes that were put, where they are told, and the count of faults.
    ghost state: { Self → SinkState };

    /// Appends the whole piece.
    fn put(&mut self, piece: &[u8]) -> Result<(), SinkFault>
        ensures put { Puts (state self.old).told (state self.new).told piece.now result }
        ensures later { (state self.old).faults ≤ (state self.new).faults }
        ensures cause { IsErrOf result SinkFault.Failed → Rose (state self.old).faults (state self.new).faults };
}
