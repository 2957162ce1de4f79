// A new message is made safe at its number.
ghost use Rattle.std.specs.Prelude.{◌≡◌, ◌≤◌, OnOk};
ghost use Rattle.file_plans.specs.Follows.{Follows, by_hand};
ghost use Rattle.step_plans.specs.PlanFaults.{plan_cause};
ghost use Rattle.message_puts.specs.Putting.{message_stored};

use crate::putting::put;
use folder_files::{Files, Place};
use mh_base::{Bytes, Entry, MsgNum, entry_name};
use std::alloc::Global;
use step_plans::{Hand, PlanFault, sync};

/// A message with these bytes is put into a directory whose highest number this is, at the first free number above it,
/// and the directory is made safe.
pub fn store<F: Files>(
    alloc: Global,
    hand: &mut Hand,
    files: &mut F,
    place: &Place,
    highest: u32,
    bytes: &mut Bytes,
) -> Result<MsgNum, PlanFault>
    requires { highest ≤ 999999 }
    ensures plan { Follows hand.old.run plan_cause (message_stored hand.old.run place.now highest bytes.old)
        (by_hand hand.old.kept (F.state files.old)) (by_hand hand.new.kept (F.state files.new)) result }
    ensures same { (hand.new.run ≡ hand.old.run) × (hand.new.mail ≡ hand.old.mail) }
    ensures bytes { OnOk result (bytes.new ≡ bytes.old) }
{
    let run = hand.run();
    let number = put(alloc, hand, files, place, bytes, None, highest)?;
    let name = entry_name(alloc, &Entry::Number(number))?;
    sync(alloc, run, files, place, &name)?;
    Ok(number)
}
