// Numbers of a set, counted from a number on.
ghost use Rattle.std.specs.Prelude.{◌≡◌, ◌≤◌, ◌+◌, ◌-◌, length, take, IfOk};
ghost use Rattle.mh_sequences.specs.Runs.{AreRuns, numbers_of};
ghost use Rattle.msg_ranges.specs.Selection.{from as from_number, up_to, take_last as last_of, least, greatest as greatest_of};

use crate::sets::clip;
use crate::walk::run_at;
use mh_base::MsgNum;
use mh_sequences::NumSet;
use std::alloc::{AllocError, Global};

/// How many numbers of a set are at most this. It looks at two runs at most.
fn count_up_to(set: &NumSet, to: u32) -> u64
    ensures count { result ≡ length (up_to to (numbers_of set.now.runs)) }
    ensures valid { AreRuns set.now.runs }
    ensures few { result ≤ 999999 }
{
    let mut i = set.place(to);
    let mut count = set.numbers_before(i);
    while let Some(run) = run_at(set, i) {
        let from = run.from.get();
        if to < from {
            return count;
        }
        count += u64::from(to.min(run.to.get()) - from) + 1;
        i += 1;
    }
    count
}

/// The least number above this.
pub(crate) fn above(set: &NumSet, n: u32) -> Option<MsgNum>
    ensures { result ≡ least (from_number (n + 1) (numbers_of set.now.runs)) }
{
    set.at(count_up_to(set, n))
}

/// The greatest number of a set.
pub(crate) fn greatest(set: &NumSet) -> Option<MsgNum>
    ensures { result ≡ greatest_of (numbers_of set.now.runs) }
{
    set.last()
}

/// The greatest number below this.
pub(crate) fn below(set: &NumSet, n: u32) -> Option<MsgNum>
    ensures { result ≡ greatest_of (up_to (n - 1) (numbers_of set.now.runs)) }
{
    let count = count_up_to(set, n.saturating_sub(1));
    if count == 0 { None } else { set.at(count - 1) }
}

/// The first so many numbers that are at least this.
pub(crate) fn take_from(
    alloc: Global,
    set: &NumSet,
    from: u32,
    count: u32,
) -> Result<NumSet, AllocError>
    requires { 1 ≤ from }
    ensures numbers { IfOk result (λ s. numbers_of s.runs ≡ take count (from_number from (numbers_of set.now.runs))) }
    ensures valid { AreRuns set.now.runs }
{
    let place = count_up_to(set, from - 1) + u64::from(count);
    match set.at(place) {
        Some(next) => clip(alloc, set, from, next.get() - 1),
        None => clip(alloc, set, from, 999_999),
    }
}

/// The last so many numbers that are at most this.
pub(crate) fn take_up_to(
    alloc: Global,
    set: &NumSet,
    to: u32,
    count: u32,
) -> Result<NumSet, AllocError>
    requires { to ≤ 999999 }
    ensures numbers { IfOk result (λ s. numbers_of s.runs ≡ last_of count (up_to to (numbers_of set.now.runs))) }
    ensures valid { AreRuns set.now.runs }
{
    let place = count_up_to(set, to).saturating_sub(u64::from(count));
    match set.at(place) {
        Some(first) => clip(alloc, set, first.get(), to),
        None => Ok(NumSet::new(alloc)),
    }
}
