// A message is put anew at its number.
ghost use Rattle.std.specs.Prelude.{◌≡◌, ◌≤◌, ◌++◌, ℕ};
ghost use Rattle.file_plans.specs.Follows.{Follows, State, by_hand};
ghost use Rattle.file_plans.specs.Plan.{Return};
ghost use Rattle.step_plans.specs.PlanFaults.{plan_cause};
ghost use Rattle.message_moves.specs.Moving.{readable};
ghost use Rattle.message_notes.specs.Noting.{stored_at};

use folder_files::{Files, Place};
use message_puts::put;
use mh_base::{Bytes, Entry, MsgNum, entry_name};
use std::alloc::Global;
use step_plans::{Hand, PlanFault, sync};

/// The greatest message that is written, in bytes.
const LIMIT: u64 = 67_108_864;

/// The lines and then the bytes. Where both together are too long they are refused.
pub(crate) fn with_lines(alloc: Global, lines: &[u8], bytes: &[u8]) -> Result<Bytes, PlanFault>
    ensures { (run : ℕ) (x : State) → Follows run plan_cause (Return (readable (lines.now ++ bytes.now))) x x result }
{
    let mut new = Bytes::from_slice(alloc, lines)?;
    new.extend(bytes)?;
    let length = new.len() as u64;
    if LIMIT < length {
        return Err(PlanFault::TooLarge(length));
    }
    Ok(new)
}

/// A message with these bytes is put at the number, or where that is taken above the highest, and the directory is made
/// safe.
pub(crate) fn store_at<F: Files>(
    alloc: Global,
    hand: &mut Hand,
    files: &mut F,
    place: &Place,
    number: MsgNum,
    bytes: &mut Bytes,
    highest: u32,
) -> Result<MsgNum, PlanFault>
    requires { highest ≤ 999999 }
    ensures plan { Follows hand.old.run plan_cause (stored_at hand.old.run place.now number bytes.old highest)
        (by_hand hand.old.kept (F.state files.old)) (by_hand hand.new.kept (F.state files.new)) result }
    ensures same { (hand.new.run ≡ hand.old.run) × (hand.new.mail ≡ hand.old.mail) }
{
    let run = hand.run();
    let number = put(alloc, hand, files, place, bytes, Some(number), highest)?;
    let name = entry_name(alloc, &Entry::Number(number))?;
    sync(alloc, run, files, place, &name)?;
    Ok(number)
}
