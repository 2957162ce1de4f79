// What is held aside in a folder is put back.
ghost use Rattle.std.specs.Prelude.{◌≡◌, ◌≤◌, [], ℕ, None, IfOk};
ghost use Rattle.file_plans.specs.Plan.{Hand};
ghost use Rattle.mh_base.specs.Numbers.{number_of};
ghost use Rattle.file_plans.specs.Follows.{State, Follows, by_hand};
ghost use Rattle.step_plans.specs.Locking.{removed};
ghost use Rattle.step_plans.specs.PlanFaults.{plan_cause};
ghost use Rattle.held_messages.specs.HeldPairs.{held_name as held_name_text, top_after};
ghost use Rattle.held_messages.specs.Highest.{above, highest as highest_in};
ghost use Rattle.held_messages.specs.SettledAlone.{SettlesIfUnfaulted};
ghost use Rattle.held_messages.specs.Settle.{
  all_homed,
  dropped,
  dropped_for_good,
  dropped_one,
  dropped_safely,
  last_put,
  names_by,
  or_before,
  put_back as put_back_plan,
  settle as settle_plan,
  synced_at,
};

use crate::HeldPair;
use crate::held::held_name;
use crate::homing::{number_name, put_home};
use crate::pairs::held_pairs;
use file_plans::{Listing, ask_list};
use folder_files::{Files, Place};
use mh_base::{Duplicate, List, MsgNum, Name, NameList};
use std::alloc::Global;
use std::marker::Model;
use step_plans::{PlanFault, sync, unlink};

/// The greatest number of a message.
const LAST: u32 = 999_999;

/// Where messages that were held aside stand now; one that stays held has no number.
pub type HomeList = List<Option<MsgNum>>;

/// The highest number, after a held message went where it went; the last of all where it stays held.
pub fn highest_after(end: &Option<MsgNum>, highest: u32) -> u32
    requires { highest ≤ 999999 }
    ensures value { result ≡ top_after end.now highest }
    ensures range { result ≤ 999999 }
{
    match end {
        Some(number) => number.get().max(highest),
        None => LAST,
    }
}

/// Each held message gets a number, one after another; `highest` is the highest number that is there.
fn put_all_home<F: Files>(
    alloc: Global,
    run: u128,
    files: &mut F,
    place: &Place,
    pairs: &[HeldPair],
    highest: u32,
) -> Result<HomeList, PlanFault>
    requires { highest ≤ 999999 }
    ensures { (h : Hand)
        → Follows run plan_cause (all_homed place.now pairs.now highest []) (by_hand h (F.state files.old))
        (by_hand h (F.state files.new)) result }
{
    let mut ends = HomeList::new(alloc);
    let mut top = highest;
    for pair in pairs {
        let end = put_home(alloc, run, files, place, pair, top)?;
        top = highest_after(&end, top);
        ends.push(end)?;
    }
    Ok(ends)
}

fn unlink_held<F: Files>(
    alloc: Global,
    run: u128,
    files: &mut F,
    place: &Place,
    pair: &HeldPair,
) -> Result<(), PlanFault>
    ensures { (h : Hand)
        → Follows run plan_cause (removed place.now (held_name_text pair.now)) (by_hand h (F.state files.old))
        (by_hand h (F.state files.new)) result }
{
    let name = held_name(alloc, pair)?;
    unlink(alloc, run, files, place, &name)
}

/// The held name is unlinked, where it was linked.
fn drop_one<F: Files>(
    alloc: Global,
    run: u128,
    files: &mut F,
    place: &Place,
    pair: &HeldPair,
    end: Option<MsgNum>,
) -> Result<(), PlanFault>
    ensures { (h : Hand)
        → Follows run plan_cause (dropped_one place.now pair.now end) (by_hand h (F.state files.old))
        (by_hand h (F.state files.new)) result }
{
    match end {
        Some(_) => unlink_held(alloc, run, files, place, pair),
        None => Ok(()),
    }
}

/// The held names that were linked are unlinked.
fn drop_all<F: Files>(
    alloc: Global,
    run: u128,
    files: &mut F,
    place: &Place,
    pairs: &[HeldPair],
    ends: &[Option<MsgNum>],
) -> Result<(), PlanFault>
    ensures { (h : Hand)
        → Follows run plan_cause (dropped place.now pairs.now ends.now) (by_hand h (F.state files.old))
        (by_hand h (F.state files.new)) result }
{
    for at in 0..pairs.len().min(ends.len()) {
        drop_one(alloc, run, files, place, &pairs[at], ends[at])?;
    }
    Ok(())
}

fn later(end: &Option<MsgNum>, before: Option<MsgNum>) -> Option<MsgNum>
    ensures { result ≡ or_before end.now before }
{
    match end {
        Some(number) => Some(*number),
        None => before,
    }
}

/// The number at which a held message was put last.
fn last_number(ends: &[Option<MsgNum>]) -> Option<MsgNum>
    ensures { result ≡ last_put ends.now None }
{
    let mut last = None;
    for end in ends {
        last = later(end, last);
    }
    last
}

fn sync_at<F: Files>(
    alloc: Global,
    run: u128,
    files: &mut F,
    place: &Place,
    number: MsgNum,
) -> Result<(), PlanFault>
    ensures { (h : Hand)
        → Follows run plan_cause (synced_at place.now number) (by_hand h (F.state files.old))
        (by_hand h (F.state files.new)) result }
{
    let name = number_name(alloc, number)?;
    sync(alloc, run, files, place, &name)
}

/// The held names that were linked go, and that they are gone is made safe.
fn drop_for_good<F: Files>(
    alloc: Global,
    run: u128,
    files: &mut F,
    place: &Place,
    pairs: &[HeldPair],
    ends: &[Option<MsgNum>],
    number: MsgNum,
) -> Result<(), PlanFault>
    ensures { (h : Hand)
        → Follows run plan_cause (dropped_for_good place.now pairs.now ends.now number) (by_hand h (F.state files.old))
        (by_hand h (F.state files.new)) result }
{
    drop_all(alloc, run, files, place, pairs, ends)?;
    sync_at(alloc, run, files, place, number)
}

/// The new numbers are made safe before the held names go.
fn drop_safely<F: Files>(
    alloc: Global,
    run: u128,
    files: &mut F,
    place: &Place,
    pairs: &[HeldPair],
    ends: HomeList,
    last: MsgNum,
) -> Result<HomeList, PlanFault>
    ensures { (h : Hand)
        → Follows run plan_cause (dropped_safely place.now pairs.now ends last) (by_hand h (F.state files.old))
        (by_hand h (F.state files.new)) result }
{
    sync_at(alloc, run, files, place, last)?;
    drop_for_good(alloc, run, files, place, pairs, ends.as_slice(), last)?;
    Ok(ends)
}

/// What is held aside is put back: each message, in this order, at its number where that is free, else above the
/// highest number. It answers where each stands now; one for which there is no number stays held.
fn settle<F: Files>(
    alloc: Global,
    run: u128,
    files: &mut F,
    place: &Place,
    pairs: &[HeldPair],
    highest: u32,
) -> Result<HomeList, PlanFault>
    requires { highest ≤ 999999 }
    ensures { (h : Hand)
        → Follows run plan_cause (settle_plan place.now pairs.now highest) (by_hand h (F.state files.old))
        (by_hand h (F.state files.new)) result }
{
    let ends = put_all_home(alloc, run, files, place, pairs, highest)?;
    match last_number(ends.as_slice()) {
        Some(last) => drop_safely(alloc, run, files, place, pairs, ends, last),
        None => Ok(ends),
    }
}

/// The highest of the number and the name's, where that is a message's.
fn higher(name: &Name, highest: u32) -> u32
    ensures { result ≡ above (number_of name.now) highest }
{
    match MsgNum::read(name.bytes()) {
        Some(number) => number.get().max(highest),
        None => highest,
    }
}

/// The highest number of the messages among these names, or 0.
pub fn highest(names: &[Name]) -> u32
    ensures value { result ≡ highest_in names.now }
    ensures range { result ≤ 999999 }
{
    let mut top = 0;
    for name in names {
        top = higher(name, top);
    }
    top
}

/// The names that a folder had, and where each message stands now that another run held aside there, by its number and
/// then by that run; none where there is no number for it, and it stays held.
#[derive(Drop)]
pub struct Settled {
    pub names: NameList,
    pub ends: HomeList,
}

impl Model for Settled {
    ghost use Rattle.held_messages.specs.Settle.{Settled as SettledValue, settled_of};

    ghost Value = { SettledValue };

    ghost view = { λ s. settled_of s.names s.ends };
}

impl Settled {
    pub fn names(&self) -> &[Name]
        ensures { result.now ≡ self.now.names }
    {
        self.names.as_slice()
    }

    pub fn ends(&self) -> &[Option<MsgNum>]
        ensures { result.now ≡ self.now.ends }
    {
        self.ends.as_slice()
    }

    pub fn into_ends(self) -> HomeList
        ensures { result ≡ self.ends }
    {
        self.ends
    }
}

fn names_from(alloc: Global, place: &Place, listing: Listing) -> Result<NameList, PlanFault>
    ensures { (run : ℕ) (x : State) → Follows run plan_cause (names_by place.now listing) x x result }
{
    match listing {
        Listing::Names(names) => Ok(names),
        Listing::Gone => Err(PlanFault::Absent(place.duplicate(alloc)?)),
    }
}

/// Lists a folder and puts back what other runs than this hold aside there: each message at its number where that is
/// free, else above the highest number.
pub fn put_back<F: Files>(
    alloc: Global,
    run: u128,
    files: &mut F,
    place: &Place,
) -> Result<Settled, PlanFault>
    ensures plan { (h : Hand)
        → Follows run plan_cause (put_back_plan run place.now) (by_hand h (F.state files.old))
        (by_hand h (F.state files.new)) result }
    ensures alone { IfOk result (λ s. SettlesIfUnfaulted run place.now s (F.state files.old) (F.state files.new)) }
{
    let listing = ask_list(alloc, run, files, place)?;
    let names = names_from(alloc, place, listing)?;
    let pairs = held_pairs(alloc, run, names.as_slice())?;
    let highest = highest(names.as_slice());
    let ends = settle(alloc, run, files, place, &pairs, highest)?;
    Ok(Settled { names, ends })
}
