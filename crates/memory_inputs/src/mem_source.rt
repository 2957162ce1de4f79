// An input over memory that fails at chosen calls.
ghost use Rattle.std.specs.Prelude.{◌≡◌, ◌≤◌, ◌↔◌, Some, IfOk, IsErrOf, Contains, length};
ghost use Rattle.mh_base.specs.Counts.{Rose};
ghost use Rattle.mh_base.specs.Streams.{Reads};

use mh_base::{Bytes, NumberList, Source, SourceFault};
use std::alloc::Global;

/// An input of these bytes that fails at chosen calls, where it reads nothing.
#[derive(Drop)]
pub struct MemSource {
    bytes: Bytes,
    read: usize,
    failing: NumberList,
    calls: u64,
    faults: u64,
}

impl MemSource {
    ghost use Rattle.memory_inputs.specs.FailingInput.{input_state};

    /// `failing` has the numbers of the failing calls of `read`, counted from 1.
    pub fn new(bytes: Bytes, failing: NumberList) -> MemSource
        ensures { input_state result ≡ record { left = bytes; failing = failing; calls = 0; faults = 0 } }
    {
        MemSource {
            bytes,
            read: 0,
            failing,
            calls: 0,
            faults: 0,
        }
    }
}

impl Source for MemSource {
    ghost use Rattle.memory_inputs.specs.FailingInput.{input_state, next_call};

    ghost state = { λ s. record { left = Some (input_state s).left; faults = (input_state s).faults } };

    fn read(&mut self, alloc: Global, most: usize) -> Result<Bytes, SourceFault>
        requires { 1 ≤ most }
        ensures piece { Reads (Some (input_state self.old).left) (Some (input_state self.new).left) result }
        ensures short { IfOk result (λ piece. length piece ≤ most) }
        ensures later { (input_state self.old).faults ≤ (input_state self.new).faults }
        ensures cause { IsErrOf result SourceFault.Failed
            → Rose (input_state self.old).faults (input_state self.new).faults }
        ensures chosen { IsErrOf result SourceFault.Failed ↔ Contains (input_state self.old).failing
            (next_call (input_state self.old)) }
        ensures counted { (input_state self.new).calls ≡ next_call (input_state self.old) }
        ensures same { (input_state self.new).failing ≡ (input_state self.old).failing }
    {
        self.calls = self.calls.saturating_add(1);
        if self.failing.as_slice().contains(&self.calls) {
            self.faults = self.faults.saturating_add(1);
            return Err(SourceFault::Failed);
        }
        let left = self.bytes.as_slice().get(self.read..).unwrap_or(&[]);
        let count = most.min(left.len());
        match Bytes::from_slice(alloc, &left[..count]) {
            Ok(piece) => {
                self.read += count;
                Ok(piece)
            }
            Err(_) => Err(SourceFault::Memory),
        }
    }
}
