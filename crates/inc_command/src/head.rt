// The first piece of a drop, and with it its length.
ghost use Rattle.std.specs.Prelude.{◌≡◌, ◌≤◌, ℕ, IfOk, length};
ghost use Rattle.file_plans.specs.Plan.{Hand as Kept};
ghost use Rattle.file_plans.specs.Follows.{State, Follows, by_hand};
ghost use Rattle.step_plans.specs.CommandFaults.{command_cause};
ghost use Rattle.inc_plans.specs.Counting.{IsHead, head_by, head_of as head_of_plan, head_read};

use crate::Head;
use crate::piece::{PIECE, drop_changed};
use file_plans::{DropPiece, ask_read_drop};
use folder_files::{FilePath, Files, Refusal};
use mh_base::Bytes;
use std::alloc::Global;
use step_plans::CommandFault;

/// The longest drop, in bytes.
const LONGEST: u64 = 268_435_456;

/// A drop of this length whose first piece is this.
fn head_of(length: u64, bytes: Bytes) -> Result<Head, CommandFault>
    ensures plan { (run : ℕ) (x : State) → Follows run command_cause (head_of_plan length bytes) x x result }
    ensures head { IfOk result IsHead }
{
    if length == 0 {
        return Err(CommandFault::Refused(Refusal::NoMail));
    }
    if length > LONGEST {
        let limit = LONGEST;
        return Err(CommandFault::Refused(Refusal::TooLarge { length, limit }));
    }
    if bytes.len() as u64 != length.min(PIECE) {
        return Err(drop_changed());
    }
    Ok(Head { length, bytes })
}

fn head_from(piece: DropPiece) -> Result<Head, CommandFault>
    ensures plan { (run : ℕ) (x : State) → Follows run command_cause (head_by piece) x x result }
    ensures head { IfOk result IsHead }
{
    match piece {
        DropPiece::Piece { bytes, length } => head_of(length, bytes),
        DropPiece::Gone => Err(CommandFault::Refused(Refusal::NoMail)),
    }
}

pub(crate) fn read_head<F: Files>(
    alloc: Global,
    run: u128,
    files: &mut F,
    path: &FilePath,
) -> Result<Head, CommandFault>
    ensures plan { (h : Kept)
        → Follows run command_cause (head_read path.now) (by_hand h (F.state files.old))
        (by_hand h (F.state files.new)) result }
    ensures head { IfOk result IsHead }
{
    let piece = ask_read_drop(alloc, run, files, path, 0, PIECE)?;
    head_from(piece)
}
