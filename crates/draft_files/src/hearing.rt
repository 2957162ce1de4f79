// The input, read whole.
ghost use Rattle.std.specs.Prelude.{◌≡◌, ℕ};
ghost use Rattle.mh_base.specs.Streams.{SinkState};
ghost use Rattle.folder_files.specs.Story.{FilesState};
ghost use Rattle.file_plans.specs.Plan.{Hand};
ghost use Rattle.file_plans.specs.Follows.{Follows, all};
ghost use Rattle.step_plans.specs.CommandFaults.{command_cause};
ghost use Rattle.draft_files.specs.Hearing.{all_heard, of_source, piece_heard};

use crate::limit::{too_large, within_limit};
use file_plans::hear;
use folder_files::Which;
use mh_base::{Bytes, Source, SourceFault};
use std::alloc::Global;
use step_plans::CommandFault;

/// The greatest piece that is asked for, in bytes.
const PIECE: usize = 65_536;

/// More pieces than the limit has bytes: each but the last has one.
const PIECES: u64 = 67_108_866;

fn fault_from(fault: SourceFault) -> CommandFault
    ensures { result ≡ of_source fault }
{
    match fault {
        SourceFault::Failed => CommandFault::Faulted(Which::Source),
        SourceFault::Memory => CommandFault::Memory,
    }
}

/// One piece of the input; the empty one is its end.
fn hear_piece<I: Source>(alloc: Global, input: &mut I) -> Result<Bytes, CommandFault>
    ensures { (run : ℕ) (h : Hand) (f : FilesState) (o : SinkState)
        → Follows run command_cause piece_heard (all h f (I.state input.old) o) (all h f (I.state input.new) o) result }
{
    match hear(alloc, input, PIECE) {
        Ok(piece) => Ok(piece),
        Err(fault) => Err(fault_from(fault)),
    }
}

/// The input to its end. One that is longer than the limit is refused, with the length that was read of it.
pub fn hear_all<I: Source>(alloc: Global, input: &mut I) -> Result<Bytes, CommandFault>
    ensures { (run : ℕ) (h : Hand) (f : FilesState) (o : SinkState)
        → Follows run command_cause all_heard (all h f (I.state input.old) o) (all h f (I.state input.new) o) result }
{
    let mut bytes = Bytes::new(alloc);
    for count in 0..PIECES {
        let piece = hear_piece(alloc, input)?;
        if piece.len() == 0 {
            return Ok(bytes);
        }
        bytes.extend(piece.as_slice())?;
        bytes = within_limit(bytes)?;
    }
    Err(too_large(&bytes))
}
