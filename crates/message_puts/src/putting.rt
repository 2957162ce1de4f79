// A new message gets a number.
ghost use Rattle.std.specs.Prelude.{◌≡◌, ◌≤◌, ◌+◌, OnOk};
ghost use Rattle.file_plans.specs.Plan.{Hand as Kept};
ghost use Rattle.file_plans.specs.Follows.{Follows, by_hand};
ghost use Rattle.step_plans.specs.PlanFaults.{plan_cause};
ghost use Rattle.message_puts.specs.Putting.{linked_first, message_put, number_got, numbered};

use folder_files::{Files, Place};
use held_messages::{link_home, link_up};
use mh_base::{Bytes, MsgNum, Name};
use std::alloc::Global;
use step_plans::{Hand, PlanFault, unlink, write_file};

/// The file of this name is linked to the wish, or else above the highest.
fn link_first<F: Files>(
    alloc: Global,
    run: u128,
    files: &mut F,
    place: &Place,
    name: &Name,
    wish: Option<MsgNum>,
    highest: u32,
) -> Result<Option<MsgNum>, PlanFault>
    requires { highest ≤ 999999 }
    ensures { (h : Kept)
        → Follows run plan_cause (linked_first place.now name.now wish highest) (by_hand h (F.state files.old))
        (by_hand h (F.state files.new)) result }
{
    match wish {
        Some(number) => link_home(alloc, run, files, place, name, number, highest),
        None => link_up(alloc, run, files, place, name, highest + 1),
    }
}

fn number<F: Files>(
    alloc: Global,
    run: u128,
    files: &mut F,
    place: &Place,
    name: &Name,
    wish: Option<MsgNum>,
    highest: u32,
) -> Result<MsgNum, PlanFault>
    requires { highest ≤ 999999 }
    ensures { (h : Kept)
        → Follows run plan_cause (numbered place.now name.now wish highest) (by_hand h (F.state files.old))
        (by_hand h (F.state files.new)) result }
{
    match link_first(alloc, run, files, place, name, wish, highest)? {
        Some(number) => Ok(number),
        None => Err(PlanFault::Full),
    }
}

/// A message with these bytes is put into a directory whose highest number this is, and gets the number that is wished
/// for; where that is taken, or none is wished for, the first free one above the highest. It is safe once the directory
/// is made safe.
pub fn put<F: Files>(
    alloc: Global,
    hand: &mut Hand,
    files: &mut F,
    place: &Place,
    bytes: &mut Bytes,
    wish: Option<MsgNum>,
    highest: u32,
) -> Result<MsgNum, PlanFault>
    requires { highest ≤ 999999 }
    ensures plan { Follows hand.old.run plan_cause (message_put hand.old.run place.now bytes.old wish highest)
        (by_hand hand.old.kept (F.state files.old)) (by_hand hand.new.kept (F.state files.new)) result }
    ensures same { (hand.new.run ≡ hand.old.run) × (hand.new.mail ≡ hand.old.mail) }
    ensures bytes { OnOk result (bytes.new ≡ bytes.old) }
{
    let run = hand.run();
    let temp = write_file(alloc, hand, files, place, bytes)?;
    let number = number(alloc, run, files, place, &temp, wish, highest)?;
    unlink(alloc, run, files, place, &temp)?;
    Ok(number)
}
