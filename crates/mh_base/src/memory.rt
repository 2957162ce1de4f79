// Streams over memory.
ghost use Rattle.std.specs.Prelude.{◌≡◌, ◌≤◌, ◌+◌, ◌-◌, ◌^◌, ◌↔◌, [], ◌++◌, Some, None, IfOk, IsErrOf, Contains, OnOk, OnErr, length, min, drop};
ghost use Rattle.mh_base.specs.Counts.{Rose};
ghost use Rattle.mh_base.specs.Streams.{Reads, Puts};

use crate::{Bytes, NumberList, Sink, SinkFault, Source, SourceFault};
use std::alloc::Global;

/// An input of these bytes, which never fails.
#[derive(Drop)]
pub struct PlainSource {
    bytes: Bytes,
    read: usize,
}

impl PlainSource {
    ghost use Rattle.mh_base.specs.Memory.{left_of};

    pub fn new(bytes: Bytes) -> PlainSource
        ensures { left_of result ≡ bytes }
    {
        PlainSource { bytes, read: 0 }
    }
}

impl Source for PlainSource {
    ghost use Rattle.mh_base.specs.Memory.{left_of};

    ghost state = { λ s. record { left = Some (left_of s); faults = 0 } };

    fn read(&mut self, alloc: Global, most: usize) -> Result<Bytes, SourceFault>
        requires { 1 ≤ most }
        ensures piece { Reads (Some (left_of self.old)) (Some (left_of self.new)) result }
        ensures short { IfOk result (λ piece. length piece ≤ most) }
        ensures later { 0 ≤ 0 }
        ensures cause { IsErrOf result SourceFault.Failed → Rose 0 0 }
    {
        let left = self.bytes.as_slice().get(self.read..).unwrap_or(&[]);
        let count = most.min(left.len());
        match Bytes::from_slice(alloc, &left[..count]) {
            Ok(piece) => {
                self.read += count;
                Ok(piece)
            }
            Err(_) => Err(SourceFault::Memory),
        }
    }
}

/// An output that keeps its bytes and never fails.
#[derive(Drop)]
pub struct PlainSink {
    bytes: Bytes,
}

impl PlainSink {
    ghost use Rattle.mh_base.specs.Memory.{put_into};

    pub fn new(alloc: Global) -> PlainSink
        ensures { put_into result ≡ [] }
    {
        PlainSink {
            bytes: Bytes::new(alloc),
        }
    }

    pub fn bytes(&self) -> &[u8]
        ensures { result.now ≡ put_into self.now }
    {
        self.bytes.as_slice()
    }
}

impl Sink for PlainSink {
    ghost use Rattle.mh_base.specs.Memory.{put_into};

    ghost state = { λ s. record { told = Some (put_into s); faults = 0 } };

    fn put(&mut self, piece: &[u8]) -> Result<(), SinkFault> {
        match self.bytes.extend(piece) {
            Ok(()) => Ok(()),
            Err(_) => Err(SinkFault::Memory),
        }
    }
}

/// An output that keeps its bytes and fails at chosen calls, where it appends nothing.
#[derive(Drop)]
pub struct MemSink {
    bytes: Bytes,
    failing: NumberList,
    calls: u64,
    faults: u64,
}

impl MemSink {
    ghost use Rattle.mh_base.specs.Memory.{mem_state};

    /// `failing` has the numbers of the failing calls of `put`, counted from 1.
    pub fn new(alloc: Global, failing: NumberList) -> MemSink
        ensures { mem_state result ≡ record { bytes = []; failing = failing; calls = 0; faults = 0 } }
    {
        MemSink {
            bytes: Bytes::new(alloc),
            failing,
            calls: 0,
            faults: 0,
        }
    }

    pub fn bytes(&self) -> &[u8]
        ensures { result.now ≡ (mem_state self.now).bytes }
    {
        self.bytes.as_slice()
    }
}

impl Sink for MemSink {
    ghost use Rattle.mh_base.specs.Memory.{mem_state, next_call};

    ghost state = { λ s. record { told = Some (mem_state s).bytes; faults = (mem_state s).faults } };

    fn put(&mut self, piece: &[u8]) -> Result<(), SinkFault>
        ensures put { Puts (Some (mem_state self.old).bytes) (Some (mem_state self.new).bytes) piece.now result }
        ensures later { (mem_state self.old).faults ≤ (mem_state self.new).faults }
        ensures cause { IsErrOf result SinkFault.Failed → Rose (mem_state self.old).faults (mem_state self.new).faults }
        ensures chosen { IsErrOf result SinkFault.Failed ↔ Contains (mem_state self.old).failing
            (next_call (mem_state self.old)) }
        ensures counted { (mem_state self.new).calls ≡ next_call (mem_state self.old) }
        ensures same { (mem_state self.new).failing ≡ (mem_state self.old).failing }
    {
        self.calls = self.calls.saturating_add(1);
        if self.failing.as_slice().contains(&self.calls) {
            self.faults = self.faults.saturating_add(1);
            return Err(SinkFault::Failed);
        }
        match self.bytes.extend(piece) {
            Ok(()) => Ok(()),
            Err(_) => Err(SinkFault::Memory),
        }
    }
}
