// Lists of runs.
ghost use Rattle.std.specs.Prelude.{◌≡◌, ◌≤◌, ◌-◌, ◌+◌, ◌∷◌, ◌++◌, nat_lt, length, take, drop, OnOk, OnErr, IsOk, slice_get, Some};
ghost use Rattle.std.specs.List.{prefix_len};
ghost use Rattle.mh_base.specs.Numbers.{IsMsgNum};
ghost use Rattle.mh_sequences.specs.Runs.{AreRuns, numbers_of};
ghost use Rattle.mh_sequences.specs.Edits.{added, grown, removed, front, back, hull as hull_of};
ghost use Rattle.mh_sequences.specs.Stretches.{IsStretch};

use crate::Run;
use crate::run::number;
use crate::run_list::RunList;
use crate::stretch::Stretch;
use mh_base::MsgNum;
use std::alloc::AllocError;

/// How many runs end before the number.
pub(crate) fn before(runs: &[Run], n: u32) -> usize
    requires { AreRuns runs.now }
    ensures value { result ≡ prefix_len (λ r. nat_lt r.to n) runs.now }
    ensures within { result ≤ length runs.now }
{
    runs.partition_point(|run| run.to.get() < n)
}

/// The first run that does not end before the number, and its place.
fn ahead(runs: &[Run], n: u32) -> (usize, Option<Run>)
    requires { AreRuns runs.now }
    ensures place { result.0 ≡ prefix_len (λ r. nat_lt r.to n) runs.now }
    ensures run { result.1 ≡ slice_get runs.now result.0 }
{
    let at = before(runs, n);
    (at, runs.get(at).copied())
}

/// The stretch that begins at the number.
pub(crate) fn stretch(runs: &[Run], n: u32) -> Stretch
    requires runs { AreRuns runs.now }
    requires number { IsMsgNum n }
    ensures { IsStretch runs.now n result }
{
    let (_, run) = ahead(runs, n);
    let Some(run) = run else {
        return Stretch {
            all: false,
            to: 999_999,
        };
    };
    let (from, to) = run.ends();
    if n < from {
        Stretch {
            all: false,
            to: from - 1,
        }
    } else {
        Stretch { all: true, to }
    }
}

fn hull(run: Run, other: Run) -> Run
    ensures { result ≡ hull_of run other }
{
    Run {
        from: run.from.min(other.from),
        to: run.to.max(other.to),
    }
}

/// The run grown by the first runs, as far as it reaches them, and how many those are.
fn absorb(run: Run, runs: &[Run]) -> (Run, usize)
    ensures within { result.1 ≤ length runs.now }
    ensures value { grown run runs.now ≡ result.0 ∷ drop result.1 runs.now }
{
    let mut whole = run;
    for (i, next) in runs.iter().enumerate() {
        if whole.to.get() + 1 < next.from.get() {
            return (whole, i);
        }
        whole = hull(whole, *next);
    }
    (whole, runs.len())
}

/// Puts a run in the place of those from one place up to another.
fn replace(runs: &mut RunList, start: usize, end: usize, run: Run) -> Result<(), AllocError>
    requires order { start ≤ end }
    requires within { end ≤ length runs.old.runs }
    ensures ok { OnOk result (runs.new.runs ≡ take start runs.old.runs ++ run ∷ drop end runs.old.runs) }
    ensures err { OnErr result (runs.new ≡ runs.old) }
    ensures succeeds { 1 ≤ runs.old.spare → IsOk result }
    ensures spare { runs.old.spare ≤ runs.new.spare + 1 }
{
    if start == end {
        return runs.put(start, run);
    }
    runs.set(start, run);
    runs.cut_out(start + 1, end);
    Ok(())
}

/// Takes a number out of the run at this place, which has it.
fn split(runs: &mut RunList, at: usize, run: Run, n: u32) -> Result<(), AllocError>
    requires is { slice_get runs.old.runs at ≡ Some run }
    requires from { run.from ≤ n }
    requires to { n ≤ run.to }
    ensures ok { OnOk result
        (runs.new.runs ≡ take at runs.old.runs ++ (front run n ++ (back run n ++ drop (at + 1) runs.old.runs))) }
    ensures err { OnErr result (runs.new ≡ runs.old) }
    ensures succeeds { 1 ≤ runs.old.spare → IsOk result }
    ensures spare { runs.old.spare ≤ runs.new.spare + 1 }
{
    prove!(at < runs.len());
    let from = run.from.get();
    let to = run.to.get();
    if from == to {
        runs.cut_out(at, at + 1);
    } else if from == n {
        runs.set(
            at,
            Run {
                from: number(n + 1),
                to: run.to,
            },
        );
    } else if to == n {
        runs.set(
            at,
            Run {
                from: run.from,
                to: number(n - 1),
            },
        );
    } else {
        runs.put(
            at + 1,
            Run {
                from: number(n + 1),
                to: run.to,
            },
        )?;
        runs.set(
            at,
            Run {
                from: run.from,
                to: number(n - 1),
            },
        );
    }
    Ok(())
}

/// Adds a run.
pub(crate) fn add(runs: &mut RunList, run: Run) -> Result<(), AllocError>
    requires runs { AreRuns runs.old.runs }
    requires run { run.from ≤ run.to }
    ensures ok { OnOk result (runs.new.runs ≡ added run runs.old.runs) }
    ensures valid { AreRuns runs.new.runs }
    ensures err { OnErr result (runs.new ≡ runs.old) }
    ensures succeeds { 1 ≤ runs.old.spare → IsOk result }
    ensures spare { runs.old.spare ≤ runs.new.spare + 1 }
{
    let (from, _) = run.ends();
    let start = before(runs.as_slice(), from - 1);
    let (_, rest) = runs.as_slice().split_at(start);
    let (whole, count) = absorb(run, rest);
    replace(runs, start, start + count, whole)
}

/// Takes a number out.
pub(crate) fn take_out(runs: &mut RunList, n: u32) -> Result<(), AllocError>
    requires { AreRuns runs.old.runs }
    ensures ok { OnOk result (runs.new.runs ≡ removed n runs.old.runs) }
    ensures valid { AreRuns runs.new.runs }
    ensures err { OnErr result (runs.new ≡ runs.old) }
    ensures succeeds { 1 ≤ runs.old.spare → IsOk result }
    ensures spare { runs.old.spare ≤ runs.new.spare + 1 }
{
    let (at, run) = ahead(runs.as_slice(), n);
    match run {
        Some(run) if run.from.get() <= n => split(runs, at, run, n),
        _ => Ok(()),
    }
}

pub(crate) fn count(run: &Run) -> u64
    requires { run.now.from ≤ run.now.to }
    ensures value { result ≡ run.now.to + 1 - run.now.from }
    ensures small { result ≤ 999999 }
{
    let (from, to) = run.ends();
    u64::from(to - from) + 1
}

/// How many numbers the runs have.
pub(crate) fn total(runs: &[Run]) -> u64
    requires { AreRuns runs.now }
    ensures { result ≡ length (numbers_of runs.now) }
{
    let mut total = 0;
    for run in runs {
        total += count(run);
    }
    total
}

/// The number at this place among all numbers of the runs.
pub(crate) fn number_at(runs: &[Run], index: u64) -> Option<MsgNum>
    requires { AreRuns runs.now }
    ensures { result ≡ slice_get (numbers_of runs.now) index }
{
    let mut left = index;
    for run in runs {
        let count = count(run);
        if left < count {
            return Some(number(run.from.get() + left as u32));
        }
        left -= count;
    }
    None
}
