// Which messages a folder has once what was held aside is put back.
ghost use Rattle.std.specs.Prelude.{◌≡◌, ◌≤◌, ◌||◌, ℕ, unwrap_or, IfOk, OnOk};
ghost use Rattle.mh_base.specs.Numbers.{IsMsgNum};
ghost use Rattle.mh_sequences.specs.Runs.{has};
ghost use Rattle.opening_plans.specs.Existing.{are_tried, exists_in, is_between, is_tried, numbers_settled};

use command_stages::noted;
use held_messages::{HeldPair, Settled, held_pairs, highest, highest_after};
use mh_base::MsgNum;
use mh_sequences::{NumSet, Pile, Run};
use std::alloc::{AllocError, Global};

/// The greatest number of a message.
const LAST: u32 = 999_999;

fn message_number(value: u32) -> MsgNum
    requires { IsMsgNum value }
    ensures { result ≡ value }
{
    MsgNum::new(value).unwrap()
}

/// Adds the numbers from the first to the last, if there are any.
fn add_between(pile: &mut Pile, first: u32, last: u32) -> Result<(), AllocError>
    requires first { 1 ≤ first }
    requires last { last ≤ 999999 }
    ensures { OnOk result ((n : ℕ) → has pile.new n ≡ (is_between first last n || has pile.old n)) }
{
    if first <= last {
        pile.add_run(Run {
            from: message_number(first),
            to: message_number(last),
        })
    } else {
        Ok(())
    }
}

fn last_tried(end: Option<MsgNum>) -> u32
    ensures value { result ≡ unwrap_or end 999999 }
    ensures range { result ≤ 999999 }
{
    match end {
        Some(number) => number.get(),
        None => LAST,
    }
}

/// Adds the numbers to which a link of the held message was tried.
fn add_tried(
    pile: &mut Pile,
    pair: &HeldPair,
    highest: u32,
    end: Option<MsgNum>,
) -> Result<(), AllocError>
    requires { highest ≤ 999999 }
    ensures { OnOk result ((n : ℕ) → has pile.new n ≡ (is_tried pair.now highest end n || has pile.old n)) }
{
    let number = pair.number.get();
    add_between(pile, number, number)?;
    add_between(pile, number.max(highest) + 1, last_tried(end))
}

/// Adds those of all held messages, which went one after another.
fn add_all_tried(
    pile: &mut Pile,
    pairs: &[HeldPair],
    highest: u32,
    ends: &[Option<MsgNum>],
) -> Result<(), AllocError>
    requires { highest ≤ 999999 }
    ensures { OnOk result ((n : ℕ) → has pile.new n ≡ (are_tried pairs.now ends.now highest n || has pile.old n)) }
{
    let mut top = highest;
    for at in 0..pairs.len().min(ends.len()) {
        let end = ends[at];
        add_tried(pile, &pairs[at], top, end)?;
        top = highest_after(&end, top);
    }
    Ok(())
}

fn existing(alloc: Global, run: u128, settled: &Settled) -> Result<Pile, AllocError>
    ensures { IfOk result (λ pile. (n : ℕ) → has pile n ≡ exists_in run settled.now n) }
{
    let pairs = held_pairs(alloc, run, settled.names())?;
    let mut pile = noted(alloc, settled.names())?;
    add_all_tried(&mut pile, &pairs, highest(settled.names()), settled.ends())?;
    Ok(pile)
}

/// The numbers of the folder's messages: those that were listed, and those at which a held message was put or found
/// another's.
pub(crate) fn settled_numbers(
    alloc: Global,
    run: u128,
    settled: &Settled,
) -> Result<NumSet, AllocError>
    ensures { IfOk result (λ s. s.runs ≡ numbers_settled run settled.now) }
{
    existing(alloc, run, settled)?.into_set()
}
