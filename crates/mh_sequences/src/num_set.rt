// Sets of message numbers.
ghost use Rattle.std.specs.Prelude.{◌≡◌, ◌≤◌, ◌+◌, ◌-◌, ◌==◌, ◌&&◌, ◌||◌, not, nat_lt, ℕ, [], length, take, IfOk, OnOk, OnErr, IsOk, MatchOption, slice_get, None, Some, if◌then◌else◌};
ghost use Rattle.std.specs.List.{prefix_len};
ghost use Rattle.mh_sequences.specs.Joins.{joins};
ghost use Rattle.mh_sequences.specs.Runs.{AreRuns, has, inside, numbers_of};
ghost use Rattle.mh_sequences.specs.Stretches.{IsJoinedStretch};
ghost use Rattle.mh_base.specs.Numbers.{IsMsgNum};

use crate::Run;
use crate::counts::Counts;
use crate::join::Join;
use crate::run::number;
use crate::run_list::RunList;
use crate::runs::{add, before, stretch, take_out};
use crate::stretch::Stretch;
use mh_base::MsgNum;
use std::alloc::{AllocError, Global};
use std::marker::Model;

/// A set of message numbers. Contracts see its runs, and for how many more it has room.
///
/// Looking a number or a place up halves the runs. A change moves the runs between its place and the nearer end, and
/// forgets how those behind it were counted. So one number after another is cheap at either end, and at both as long as
/// there is room for a good part of the runs more. To change many in any order, make a `Pile` and `join` its set.
#[derive(Drop)]
pub struct NumSet {
    runs: RunList,
    counts: Counts,
}

impl Model for NumSet {
    ghost use Rattle.mh_sequences.specs.Counts.{AreEnds};
    ghost use Rattle.mh_sequences.specs.Runs.{AreRuns, Numbers};

    ghost Value = { Numbers };

    ghost view = { λ s. s.runs };

    ghost invariant = { λ s. AreRuns s.runs.runs × AreEnds 0 s.counts.ends.items s.runs.runs };
}

/// The stretch of two sets joined that begins at the number, or a front of it.
fn joined_stretch(first: &[Run], second: &[Run], how: Join, from: u32) -> Stretch
    requires first { AreRuns first.now }
    requires second { AreRuns second.now }
    requires number { IsMsgNum from }
    ensures { IsJoinedStretch how first.now second.now from result }
{
    let first = stretch(first, from);
    let second = stretch(second, from);
    let to = if how.is_settled_by_first(first.all) {
        first.to
    } else if how.is_settled_by_second(second.all) {
        second.to
    } else {
        first.to.min(second.to)
    };
    Stretch {
        all: how.takes(first.all, second.all),
        to,
    }
}

impl NumSet {
    /// The empty set.
    pub fn new(alloc: Global) -> NumSet
        ensures { result.runs ≡ [] }
    {
        NumSet {
            runs: RunList::new(alloc),
            counts: Counts::new(alloc),
        }
    }

    pub fn has(&self, n: MsgNum) -> bool
        ensures { result ≡ has self.now.runs n }
    {
        stretch(self.runs.as_slice(), n.get()).all
    }

    /// Makes room for so many runs. With room for one, a change of the set cannot fail.
    pub fn reserve(&mut self, more: u64) -> Result<(), AllocError>
        requires { more ≤ 1000000 }
        ensures ok { OnOk result (more ≤ self.new.spare) }
        ensures runs { self.new.runs ≡ self.old.runs }
        ensures err { OnErr result (self.new ≡ self.old) }
    {
        self.runs.reserve(more as usize)
    }

    /// Adds all numbers of a run.
    pub fn insert_run(&mut self, run: Run) -> Result<(), AllocError>
        requires { run.from ≤ run.to }
        ensures ok { OnOk result ((n : ℕ) → has self.new.runs n ≡ (inside run n || has self.old.runs n)) }
        ensures valid { AreRuns self.new.runs }
        ensures err { OnErr result (self.new ≡ self.old) }
        ensures succeeds { 1 ≤ self.old.spare → IsOk result }
        ensures spare { self.old.spare ≤ self.new.spare + 1 }
    {
        let (from, _) = run.ends();
        self.counts
            .forget_from(before(self.runs.as_slice(), from - 1));
        add(&mut self.runs, run)?;
        self.counts.count_on(self.runs.as_slice());
        Ok(())
    }

    /// Adds a number.
    pub fn insert(&mut self, n: MsgNum) -> Result<(), AllocError>
        ensures ok { OnOk result ((m : ℕ) → has self.new.runs m ≡ (m == n || has self.old.runs m)) }
        ensures err { OnErr result (self.new ≡ self.old) }
        ensures succeeds { 1 ≤ self.old.spare → IsOk result }
        ensures spare { self.old.spare ≤ self.new.spare + 1 }
    {
        self.insert_run(Run { from: n, to: n })
    }

    /// Takes a number away.
    pub fn remove(&mut self, n: MsgNum) -> Result<(), AllocError>
        ensures ok { OnOk result ((m : ℕ) → has self.new.runs m ≡ (has self.old.runs m && not (m == n))) }
        ensures err { OnErr result (self.new ≡ self.old) }
        ensures succeeds { 1 ≤ self.old.spare → IsOk result }
        ensures spare { self.old.spare ≤ self.new.spare + 1 }
    {
        self.counts
            .forget_from(before(self.runs.as_slice(), n.get()));
        take_out(&mut self.runs, n.get())?;
        self.counts.count_on(self.runs.as_slice());
        Ok(())
    }

    /// How many runs of consecutive numbers there are, each as long as it can be.
    pub fn runs(&self) -> u64
        ensures value { result ≡ length self.now.runs }
        ensures valid { AreRuns self.now.runs }
    {
        self.runs.len() as u64
    }

    /// The run at this place, ascending from 0.
    pub fn run_at(&self, index: u64) -> Option<Run>
        ensures { MatchOption result (slice_get self.now.runs index ≡ None)
            (λ r. slice_get self.now.runs index ≡ Some r) }
    {
        self.runs.as_slice().get(index as usize).copied()
    }

    /// How many numbers there are.
    pub fn len(&self) -> u64
        ensures { result ≡ length (numbers_of self.now.runs) }
    {
        self.counts.before(self.runs.as_slice(), self.runs.len())
    }

    /// How many runs end before this number.
    pub fn place(&self, n: u32) -> u64
        ensures { result ≡ prefix_len (λ r. nat_lt r.to n) self.now.runs }
    {
        before(self.runs.as_slice(), n) as u64
    }

    /// How many numbers the runs before this place have.
    pub fn numbers_before(&self, place: u64) -> u64
        ensures { result ≡ length (numbers_of (take place self.now.runs)) }
    {
        let place = place.min(self.runs.len() as u64);
        self.counts.before(self.runs.as_slice(), place as usize)
    }

    pub fn is_empty(&self) -> bool
        ensures value { result ≡ (length self.now.runs == 0) }
        ensures valid { AreRuns self.now.runs }
    {
        self.runs.as_slice().is_empty()
    }

    /// The number at this place, ascending from 0.
    pub fn at(&self, index: u64) -> Option<MsgNum>
        ensures { result ≡ slice_get (numbers_of self.now.runs) index }
    {
        self.counts.number_at(self.runs.as_slice(), index)
    }

    /// The last number, if there is one.
    pub fn last(&self) -> Option<MsgNum>
        ensures { result ≡ slice_get (numbers_of self.now.runs) (length (numbers_of self.now.runs) - 1) }
    {
        self.at(self.len().saturating_sub(1))
    }

    pub(crate) fn as_slice(&self) -> &[Run]
        ensures value { result.now ≡ self.now.runs }
        ensures valid { AreRuns result.now }
    {
        self.runs.as_slice()
    }

    pub(crate) fn into_runs(self) -> Vec<Run>
        ensures value { result.items ≡ self.runs }
        ensures valid { AreRuns result.items }
    {
        let NumSet { runs, .. } = self;
        runs.into_vec()
    }

    /// The same set again.
    pub fn copy(&self, alloc: Global) -> Result<NumSet, AllocError>
        ensures { IfOk result (λ s. s.runs ≡ self.now.runs) }
    {
        Ok(NumSet {
            runs: self.runs.copy(alloc)?,
            counts: self.counts.copy(alloc)?,
        })
    }

    /// The set of this and another. It takes no more steps than the smaller one has runs, and what comes out.
    pub fn join(&self, alloc: Global, other: &NumSet, how: Join) -> Result<NumSet, AllocError>
        ensures numbers { IfOk result
            (λ s. (n : ℕ) → has s.runs n ≡ joins how (has self.now.runs n) (has other.now.runs n)) }
        ensures valid { IfOk result (λ s. AreRuns s.runs) }
        ensures valid_self { AreRuns self.now.runs }
    {
        let mut joined = NumSet::new(alloc);
        let mut from = 1;
        while from <= 999_999 {
            let Stretch { all, to } = joined_stretch(
                self.runs.as_slice(),
                other.runs.as_slice(),
                how,
                from,
            );
            if all {
                joined.insert_run(Run {
                    from: number(from),
                    to: number(to),
                })?;
            }
            from = to + 1;
        }
        Ok(joined)
    }
}
