// One message that is held aside gets a number again.
ghost use Rattle.std.specs.Prelude.{◌≡◌, ◌≤◌, ◌+◌, max, IfOk, decimal};
ghost use Rattle.mh_base.specs.Numbers.{IsMsgNum};
ghost use Rattle.file_plans.specs.Plan.{Hand};
ghost use Rattle.file_plans.specs.Follows.{Follows, by_hand};
ghost use Rattle.step_plans.specs.PlanFaults.{plan_cause};
ghost use Rattle.held_messages.specs.HeldPairs.{held_name as held_name_text};
ghost use Rattle.held_messages.specs.Settle.{given_from, homed, homed_name, linked};

use crate::HeldPair;
use crate::held::held_name;
use file_plans::{Entered, ask_link};
use folder_files::{Files, Place};
use mh_base::{Entry, MsgNum, Name, entry_name};
use std::alloc::{AllocError, Global};
use step_plans::{PlanFault, meddled};

/// The name of the message of this number.
pub(crate) fn number_name(alloc: Global, number: MsgNum) -> Result<Name, AllocError>
    ensures { IfOk result (λ name. name ≡ decimal number) }
{
    entry_name(alloc, &Entry::Number(number))
}

/// The held name is linked to this number, where that is free.
fn link_to<F: Files>(
    alloc: Global,
    run: u128,
    files: &mut F,
    place: &Place,
    held: &Name,
    number: MsgNum,
) -> Result<Entered, PlanFault>
    ensures { (h : Hand)
        → Follows run plan_cause (linked place.now held.now number) (by_hand h (F.state files.old))
        (by_hand h (F.state files.new)) result }
{
    let name = number_name(alloc, number)?;
    Ok(ask_link(alloc, run, files, place, held, &name)?)
}

fn message_number(value: u32) -> MsgNum
    requires { IsMsgNum value }
    ensures { result ≡ value }
{
    MsgNum::new(value).unwrap()
}

/// The number above both of these.
fn above(number: MsgNum, highest: u32) -> u32
    requires { highest ≤ 999999 }
    ensures value { result ≡ max number highest + 1 }
    ensures range { 1 ≤ result }
{
    number.get().max(highest) + 1
}

/// A name's file is linked to the first free number from here on, which is told; none where none is free up to 999,999.
pub fn link_up<F: Files>(
    alloc: Global,
    run: u128,
    files: &mut F,
    place: &Place,
    held: &Name,
    first: u32,
) -> Result<Option<MsgNum>, PlanFault>
    requires { 1 ≤ first }
    ensures { (h : Hand)
        → Follows run plan_cause (given_from place.now held.now first) (by_hand h (F.state files.old))
        (by_hand h (F.state files.new)) result }
{
    for at in first..1_000_000 {
        let number = message_number(at);
        match link_to(alloc, run, files, place, held, number)? {
            Entered::Done => return Ok(Some(number)),
            Entered::Exists => {}
            Entered::Gone => return Err(meddled(alloc, place, held)?),
        }
    }
    Ok(None)
}

/// A name's file is linked to this number, or where that is taken to the first free one above it and the highest; which
/// number that is, or none where none is free up to 999,999.
pub fn link_home<F: Files>(
    alloc: Global,
    run: u128,
    files: &mut F,
    place: &Place,
    name: &Name,
    number: MsgNum,
    highest: u32,
) -> Result<Option<MsgNum>, PlanFault>
    requires { highest ≤ 999999 }
    ensures { (h : Hand)
        → Follows run plan_cause (homed_name place.now name.now number highest) (by_hand h (F.state files.old))
        (by_hand h (F.state files.new)) result }
{
    match link_to(alloc, run, files, place, name, number)? {
        Entered::Done => Ok(Some(number)),
        Entered::Exists => {
            let first = above(number, highest);
            link_up(alloc, run, files, place, name, first)
        }
        Entered::Gone => Err(meddled(alloc, place, name)?),
    }
}

/// The held name is linked to its number, or else above the highest.
pub(crate) fn put_home<F: Files>(
    alloc: Global,
    run: u128,
    files: &mut F,
    place: &Place,
    pair: &HeldPair,
    highest: u32,
) -> Result<Option<MsgNum>, PlanFault>
    requires { highest ≤ 999999 }
    ensures { (h : Hand)
        → Follows run plan_cause (homed place.now pair.now highest) (by_hand h (F.state files.old))
        (by_hand h (F.state files.new)) result }
{
    let held = held_name(alloc, pair)?;
    link_home(alloc, run, files, place, &held, pair.number, highest)
}
