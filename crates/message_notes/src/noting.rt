// Messages get lines in front.
ghost use Rattle.std.specs.Prelude.{◌≡◌, ◌≤◌};
ghost use Rattle.file_plans.specs.Follows.{Follows, by_hand};
ghost use Rattle.step_plans.specs.PlanFaults.{plan_cause};
ghost use Rattle.message_notes.specs.Noting.{message_noted, messages_noted};

use crate::storing::{store_at, with_lines};
use folder_files::{Files, Place};
use message_moves::{content, discard, take};
use mh_base::MsgNum;
use std::alloc::Global;
use step_plans::{Hand, PlanFault};

/// The message of this number is held aside, put anew at its number with the lines in front, and let go once that is
/// safe.
fn note_message<F: Files>(
    alloc: Global,
    hand: &mut Hand,
    files: &mut F,
    place: &Place,
    lines: &[u8],
    number: MsgNum,
    highest: u32,
) -> Result<MsgNum, PlanFault>
    requires { highest ≤ 999999 }
    ensures plan { Follows hand.old.run plan_cause (message_noted hand.old.run place.now lines.now number highest)
        (by_hand hand.old.kept (F.state files.old)) (by_hand hand.new.kept (F.state files.new)) result }
    ensures same { (hand.new.run ≡ hand.old.run) × (hand.new.mail ≡ hand.old.mail) }
{
    let run = hand.run();
    let held = take(alloc, run, files, place, number)?;
    let bytes = content(alloc, run, files, place, &held)?;
    let mut new = with_lines(alloc, lines, bytes.as_slice())?;
    let end = store_at(alloc, hand, files, place, number, &mut new, highest)?;
    discard(alloc, run, files, place, &held)?;
    Ok(end)
}

/// The messages of these numbers get the lines in front of their bytes, one after another, and keep their numbers: each
/// is held aside, read, put anew, and let go once that is safe. One whose number was taken meanwhile stands above the
/// highest.
pub fn note_messages<F: Files>(
    alloc: Global,
    hand: &mut Hand,
    files: &mut F,
    place: &Place,
    lines: &[u8],
    numbers: &[MsgNum],
    highest: u32,
) -> Result<(), PlanFault>
    requires { highest ≤ 999999 }
    ensures plan { Follows hand.old.run plan_cause (messages_noted hand.old.run place.now lines.now numbers.now highest)
        (by_hand hand.old.kept (F.state files.old)) (by_hand hand.new.kept (F.state files.new)) result }
    ensures same { (hand.new.run ≡ hand.old.run) × (hand.new.mail ≡ hand.old.mail) }
{
    let mut top = highest;
    for number in numbers {
        let end = note_message(alloc, hand, files, place, lines, *number, top)?;
        top = top.max(end.get());
    }
    Ok(())
}
