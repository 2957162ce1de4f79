// A piece of a drop is cut into the messages that it finishes.
ghost use Rattle.std.specs.Prelude.{◌≡◌, ◌++◌, ℕ, List, OnOk};
ghost use Rattle.mbox_drop.specs.Cutting.{HasTaken};
ghost use Rattle.inc_plans.specs.Cutting.{IsGiven, fault_of, given_by, last_by};

use crate::piece::drop_changed;
use mbox_drop::{CutFault, DropCutter};
use mh_base::{Bytes, BytesList};
use step_plans::CommandFault;

fn cut_fault(fault: CutFault) -> CommandFault
    ensures { result ≡ fault_of fault }
{
    match fault {
        CutFault::Memory => CommandFault::Memory,
        _ => drop_changed(),
    }
}

/// The messages that the next piece finishes; a drop that is none any more, or has a message that is too long, was
/// changed.
pub(crate) fn feed(cutter: &mut DropCutter, piece: &[u8]) -> Result<BytesList, CommandFault>
    ensures value { (d : List ℕ) → HasTaken cutter.old d → IsGiven (given_by d piece.now) result }
    ensures taken { (d : List ℕ) → HasTaken cutter.old d → OnOk result (HasTaken cutter.new (d ++ piece.now)) }
{
    match cutter.feed(piece) {
        Ok(given) => Ok(given),
        Err(fault) => Err(cut_fault(fault)),
    }
}

/// The last message.
pub(crate) fn end(cutter: DropCutter) -> Result<Option<Bytes>, CommandFault>
    ensures { (d : List ℕ) → HasTaken cutter d → IsGiven (last_by d) result }
{
    match cutter.end() {
        Ok(last) => Ok(last),
        Err(fault) => Err(cut_fault(fault)),
    }
}
