// A piece of a drop that is read.
ghost use Rattle.std.specs.Prelude.{◌≡◌, ℕ, IfOk, length};
ghost use Rattle.file_plans.specs.Plan.{Hand};
ghost use Rattle.file_plans.specs.Follows.{State, Follows, by_hand};
ghost use Rattle.step_plans.specs.CommandFaults.{command_cause};
ghost use Rattle.inc_plans.specs.Counting.{piece_by, piece_read};

use file_plans::{DropPiece, ask_read_drop};
use folder_files::{FilePath, Files, Refusal};
use mh_base::Bytes;
use std::alloc::Global;
use step_plans::CommandFault;

/// How many bytes are asked for at once.
pub(crate) const PIECE: u64 = 65_536;

pub(crate) fn drop_changed() -> CommandFault
    ensures { result ≡ CommandFault.Refused Refusal.DropChanged }
{
    CommandFault::Refused(Refusal::DropChanged)
}

/// A piece of just so many bytes; else the drop was changed.
fn piece_from(asked: u64, piece: DropPiece) -> Result<Bytes, CommandFault>
    ensures plan { (run : ℕ) (x : State) → Follows run command_cause (piece_by asked piece) x x result }
    ensures whole { IfOk result (λ b. length b ≡ asked) }
{
    match piece {
        DropPiece::Piece { bytes, .. } => {
            if bytes.len() as u64 == asked {
                Ok(bytes)
            } else {
                Err(drop_changed())
            }
        }
        DropPiece::Gone => Err(drop_changed()),
    }
}

/// So many bytes of the drop from this place on.
pub(crate) fn read_piece<F: Files>(
    alloc: Global,
    run: u128,
    files: &mut F,
    path: &FilePath,
    from: u64,
    asked: u64,
) -> Result<Bytes, CommandFault>
    ensures plan { (h : Hand)
        → Follows run command_cause (piece_read path.now from asked) (by_hand h (F.state files.old))
        (by_hand h (F.state files.new)) result }
    ensures whole { IfOk result (λ b. length b ≡ asked) }
{
    let piece = ask_read_drop(alloc, run, files, path, from, asked)?;
    piece_from(asked, piece)
}
