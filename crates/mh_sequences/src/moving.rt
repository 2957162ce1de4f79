// Numbers that move.
ghost use Rattle.std.specs.Prelude.{◌≡◌, ◌≤◌, ◌==◌, ◌&&◌, ◌||◌, ℕ, length, nat_lt, IfOk, OnOk};
ghost use Rattle.std.specs.List.{list_any, prefix_len};
ghost use Rattle.std.specs.List.Sorted.{IsPermutation};
ghost use Rattle.mh_sequences.specs.Changes.{AreSources};
ghost use Rattle.mh_sequences.specs.Marks.{moved as moved_numbers, moved_to};
ghost use Rattle.mh_sequences.specs.PairOrder.{IsInOrder};
ghost use Rattle.mh_sequences.specs.Runs.{has, inside};

use crate::join::Join;
use crate::{NumSet, Pair, PairList, Pile, Run};
use mh_base::MsgNum;
use std::alloc::{AllocError, Global};

fn one(n: MsgNum) -> Run
    ensures value { result ≡ record { from = n; to = n } }
    ensures order { result.from ≤ result.to }
{
    Run { from: n, to: n }
}

/// The pairs in order of the numbers that they move.
pub(crate) fn in_order(alloc: Global, pairs: &PairList) -> Result<Vec<Pair>, AllocError>
    ensures order { IfOk result (λ v. IsInOrder v.items) }
    ensures same { IfOk result (λ v. IsPermutation pairs.now v.items) }
{
    let mut ordered = pairs.as_slice().to_vec(alloc)?;
    ordered.sort_unstable_by_key(|pair| pair.from.get());
    Ok(ordered)
}

/// The numbers that pairs move.
pub(crate) fn sources(alloc: Global, pairs: &[Pair]) -> Result<NumSet, AllocError>
    ensures { IfOk result (λ s. AreSources pairs.now s.runs) }
{
    let mut pile = Pile::new(alloc);
    for pair in pairs {
        pile.add_run(one(pair.from))?;
    }
    pile.into_set()
}

/// How many pairs move a number below this one.
fn passed(pairs: &[Pair], n: u32) -> usize
    requires { IsInOrder pairs.now }
    ensures value { result ≡ prefix_len (λ p. nat_lt p.from n) pairs.now }
    ensures within { result ≤ length pairs.now }
{
    pairs.partition_point(|pair| pair.from.get() < n)
}

/// The pairs that move a number of the run.
fn moving_in<'a>(pairs: &'a [Pair], run: &Run) -> &'a [Pair]
    requires order { IsInOrder pairs.now }
    requires run { run.now.from ≤ run.now.to }
    ensures { (n : ℕ) → list_any (λ p. n == p.to) result.now
        ≡ list_any (λ p. n == p.to && inside run.now p.from) pairs.now }
{
    let (from, to) = run.ends();
    let start = passed(pairs, from);
    let end = passed(pairs, to + 1);
    &pairs[start..end]
}

/// Adds the new numbers of those of a run that pairs move.
fn add_targets(pile: &mut Pile, run: &Run, pairs: &[Pair]) -> Result<(), AllocError>
    requires order { IsInOrder pairs.now }
    requires run { run.now.from ≤ run.now.to }
    ensures { OnOk result
        ((n : ℕ) → has pile.new n ≡ (list_any (λ p. n == p.to && inside run.now p.from) pairs.now || has pile.old n)) }
{
    for pair in moving_in(pairs, run) {
        pile.add_run(one(pair.to))?;
    }
    Ok(())
}

/// The new numbers of those that pairs move.
fn targets(alloc: Global, numbers: &NumSet, pairs: &[Pair]) -> Result<NumSet, AllocError>
    requires { IsInOrder pairs.now }
    ensures { IfOk result
        (λ s. (n : ℕ) → has s.runs n ≡ list_any (λ p. n == p.to && has numbers.now.runs p.from) pairs.now) }
{
    let mut pile = Pile::new(alloc);
    for run in numbers.as_slice() {
        add_targets(&mut pile, run, pairs)?;
    }
    pile.into_set()
}

/// The numbers with the new ones of those that move. It takes steps by the runs and by the pairs that move one of their
/// numbers, and none by other pairs.
pub(crate) fn moved(
    alloc: Global,
    numbers: &NumSet,
    pairs: &[Pair],
    sources: &NumSet,
) -> Result<NumSet, AllocError>
    requires order { IsInOrder pairs.now }
    requires sources { AreSources pairs.now sources.now.runs }
    ensures { IfOk result (λ s. (n : ℕ) → has s.runs n ≡ moved_numbers pairs.now (has numbers.now.runs) n) }
{
    let left = numbers.join(alloc, sources, Join::FirstAlone)?;
    let new = targets(alloc, numbers, pairs)?;
    new.join(alloc, &left, Join::Either)
}

/// The number that a number becomes.
pub(crate) fn new_number(pairs: &PairList, n: MsgNum) -> MsgNum
    ensures { result ≡ moved_to pairs.now n }
{
    for pair in pairs.as_slice() {
        if n.get() == pair.from.get() {
            return pair.to;
        }
    }
    n
}
