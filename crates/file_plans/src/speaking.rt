// Pieces of output and of input.
ghost use Rattle.std.specs.Prelude.{◌≤◌, ℕ};
ghost use Rattle.mh_base.specs.Streams.{SinkState};
ghost use Rattle.folder_files.specs.Story.{FilesState};
ghost use Rattle.file_plans.specs.Plan.{Hand, say as say_plan, hear as hear_plan};
ghost use Rattle.file_plans.specs.Follows.{Follows, all, by_out};
ghost use Rattle.file_plans.specs.Asking.{sink_cause, source_cause};

use mh_base::{Bytes, Sink, SinkFault, Source, SourceFault};
use std::alloc::Global;

/// Puts a piece to the output.
pub fn say<O: Sink>(out: &mut O, piece: &[u8]) -> Result<(), SinkFault>
    ensures { (run : ℕ) (h : Hand) (f : FilesState)
        → Follows run sink_cause (say_plan piece.now) (by_out h f (O.state out.old))
        (by_out h f (O.state out.new)) result }
{
    out.put(piece)
}

/// Takes a piece of at most so many bytes from the input.
pub fn hear<I: Source>(alloc: Global, input: &mut I, most: usize) -> Result<Bytes, SourceFault>
    requires { 1 ≤ most }
    ensures { (run : ℕ) (h : Hand) (f : FilesState) (o : SinkState)
        → Follows run source_cause (hear_plan most) (all h f (I.state input.old) o)
        (all h f (I.state input.new) o) result }
{
    input.read(alloc, most)
}
