// Lists of numbers as text.
ghost use Rattle.std.specs.Prelude.{◌≡◌, ℕ, List, ◌≤◌, ◌||◌, length, take, drop, IfOk, IfSome, OnOk, map};
ghost use Rattle.std.specs.Option.{option_map};
ghost use Rattle.std.specs.List.{prefix_len, find};
ghost use Rattle.mh_base.specs.Numbers.{number_of};
ghost use Rattle.mh_sequences.specs.Lists.{between as run_between, items, is_listed as is_listed_item, is_no_dash, lists, run_has, run_in, up_to as run_up_to};
ghost use Rattle.mh_sequences.specs.Runs.{has};
ghost use Rattle.mh_base.specs.Characters.{is_blank as is_blank_byte};

use crate::{NumSet, Pile, Run};
use mh_base::MsgNum;
use std::alloc::{AllocError, Global};

fn is_blank(byte: u8) -> bool
    ensures { result ≡ is_blank_byte byte }
{
    byte == b' ' || byte == b'\t'
}

fn between(from: Option<MsgNum>, to: Option<MsgNum>) -> Option<Run>
    ensures value { result ≡ run_between from to }
    ensures order { IfSome result (λ r. r.from ≤ r.to) }
{
    let from = from?;
    let to = to?;
    if from.get() <= to.get() {
        Some(Run { from, to })
    } else {
        None
    }
}

fn up_to(from: Option<MsgNum>, behind: &[u8]) -> Option<Run>
    ensures value { result ≡ run_up_to from behind.now }
    ensures order { IfSome result (λ r. r.from ≤ r.to) }
{
    match behind.split_first() {
        Some((_, to)) => between(from, MsgNum::read(to)),
        None => None,
    }
}

fn dash_place(item: &[u8]) -> usize
    ensures value { result ≡ prefix_len is_no_dash item.now }
    ensures within { result ≤ length item.now }
{
    item.iter().take_while(|byte| **byte != b'-').count()
}

/// The run that an item names.
#[tactic(auto, unfolding(crate::specs::Lists::run_in))]
pub(crate) fn read_run(item: &[u8]) -> Option<Run>
    ensures value { result ≡ run_in item.now }
    ensures order { IfSome result (λ r. r.from ≤ r.to) }
{
    if let Some(n) = MsgNum::read(item) {
        return Some(Run { from: n, to: n });
    }
    let (from, behind) = item.split_at(dash_place(item));
    up_to(MsgNum::read(from), behind)
}

fn is_listed(item: &[u8]) -> bool
    ensures { result ≡ is_listed_item item.now }
{
    read_run(item).is_some()
}

/// The first item that names a run.
pub(crate) fn first_item(text: &[u8]) -> Option<&[u8]>
    ensures { option_map (λ i. i.now) result ≡ find is_listed_item (items text.now) }
{
    text.split(|byte| is_blank(*byte))
        .find(|item| is_listed(item))
}

/// Adds what an item names.
fn add_item(numbers: &mut Pile, item: &[u8]) -> Result<(), AllocError>
    ensures { OnOk result ((n : ℕ) → has numbers.new n ≡ (run_has (run_in item.now) n || has numbers.old n)) }
{
    match read_run(item) {
        Some(run) => numbers.add_run(run),
        None => Ok(()),
    }
}

/// The numbers of a list.
pub(crate) fn read_list(alloc: Global, text: &[u8]) -> Result<NumSet, AllocError>
    ensures { IfOk result (λ s. (n : ℕ) → has s.runs n ≡ lists text.now n) }
{
    let mut numbers = Pile::new(alloc);
    for item in text.split(|byte| is_blank(*byte)) {
        add_item(&mut numbers, item)?;
    }
    numbers.into_set()
}
