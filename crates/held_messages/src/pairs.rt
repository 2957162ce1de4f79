// Which messages a folder holds aside.
ghost use Rattle.std.specs.Prelude.{◌≡◌, ◌≤◌, ◌++◌, length, IfOk, OnOk};
ghost use Rattle.std.specs.List.{prefix_len};
ghost use Rattle.std.specs.List.Sorted.{IsPermutation};
ghost use Rattle.mh_base.specs.Entries.{kind_of};
ghost use Rattle.held_messages.specs.HeldPairs.{
  AreInOrder,
  IsFoundIn,
  alone,
  held_pairs as held_pairs_in,
  inserted,
  is_at as is_at_place,
  is_before as is_before_it,
  pair_in,
};

use crate::HeldPair;
use mh_base::{Entry, Name, entry_of};
use std::alloc::{AllocError, Global};

fn is_before(one: &HeldPair, other: &HeldPair) -> bool
    ensures { result ≡ is_before_it one.now other.now }
{
    one.number < other.number || one.number == other.number && one.run < other.run
}

/// How many of the pairs stand before this one.
fn passed(pairs: &[HeldPair], pair: &HeldPair) -> usize
    requires { AreInOrder pairs.now }
    ensures value { result ≡ prefix_len (λ k. is_before_it k pair.now) pairs.now }
    ensures within { result ≤ length pairs.now }
{
    pairs.partition_point(|other| is_before(other, pair))
}

/// Whether the pair stands at this place already; one that stands there is not before it.
fn is_at(pairs: &[HeldPair], at: usize, pair: &HeldPair) -> bool
    ensures { result ≡ is_at_place pairs.now at pair.now }
{
    match pairs.get(at) {
        Some(other) => !is_before(pair, other),
        None => false,
    }
}

/// Puts a pair among others in order, once.
fn insert(pairs: &mut Vec<HeldPair>, pair: HeldPair) -> Result<(), AllocError>
    requires { AreInOrder pairs.old.items }
    ensures { OnOk result (pairs.new.items ≡ inserted pair pairs.old.items) }
{
    let at = passed(pairs, &pair);
    if is_at(pairs, at, &pair) {
        return Ok(());
    }
    pairs.insert(at, pair)?;
    Ok(())
}

/// The pair whose message has this name, where another run than this holds it aside.
fn pair_of(run: u128, name: &Name) -> Option<HeldPair>
    ensures { result ≡ pair_in run (kind_of name.now) }
{
    match entry_of(name.bytes()) {
        Entry::Held(other, number) if other != run => Some(HeldPair { run: other, number }),
        _ => None,
    }
}

fn push(pairs: &mut Vec<HeldPair>, pair: Option<HeldPair>) -> Result<(), AllocError>
    ensures { OnOk result (pairs.new.items ≡ pairs.old.items ++ alone pair) }
{
    let Some(pair) = pair else {
        return Ok(());
    };
    pairs.push(pair)?;
    Ok(())
}

/// The pairs of these names, as they come.
fn found(alloc: Global, run: u128, names: &[Name]) -> Result<Vec<HeldPair>, AllocError>
    ensures { IfOk result (λ pairs. IsFoundIn run names.now pairs.items) }
{
    let mut pairs = Vec::new(alloc);
    for name in names {
        push(&mut pairs, pair_of(run, name))?;
    }
    Ok(pairs)
}

/// Puts pairs in order, in which each goes behind those that stand already.
fn sort(pairs: &mut Vec<HeldPair>)
    ensures { IsPermutation pairs.old.items pairs.new.items }
{
    pairs.sort_unstable_by(|one, other| {
        one.number.cmp(&other.number).then(one.run.cmp(&other.run))
    });
}

/// What other runs than this hold aside, by the names of a folder: by number, then by run, each once.
pub fn held_pairs(alloc: Global, run: u128, names: &[Name]) -> Result<Vec<HeldPair>, AllocError>
    ensures { IfOk result (λ pairs. pairs.items ≡ held_pairs_in run names.now) }
{
    let mut found = found(alloc, run, names)?;
    sort(&mut found);
    let mut pairs = Vec::new(alloc);
    for pair in found.as_slice() {
        insert(&mut pairs, *pair)?;
    }
    Ok(pairs)
}
