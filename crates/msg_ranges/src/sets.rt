// Sets made of sets.
ghost use Rattle.std.specs.Prelude.{◌≡◌, ◌≤◌, ◌&&◌, ◌||◌, not, nat_le, ℕ, IfOk, OnOk};
ghost use Rattle.mh_sequences.specs.Runs.{AreRuns, has, numbers_of};
ghost use Rattle.msg_ranges.specs.Selection.{from as from_number, up_to};

use mh_base::MsgNum;
use mh_sequences::{Join, NumSet, Run};
use std::alloc::{AllocError, Global};

/// Adds the numbers between two values, both included.
fn insert_span(set: &mut NumSet, from: u32, to: u32) -> Result<(), AllocError>
    requires from { 1 ≤ from }
    requires to { to ≤ 999999 }
    ensures { OnOk result ((n : ℕ) → has set.new.runs n ≡ ((nat_le from n && nat_le n to) || has set.old.runs n)) }
{
    if to < from {
        return Ok(());
    }
    match (MsgNum::new(from), MsgNum::new(to)) {
        (Some(from), Some(to)) => set.insert_run(Run { from, to }),
        _ => Ok(()),
    }
}

/// The numbers of both sets.
pub(crate) fn common(alloc: Global, first: &NumSet, second: &NumSet) -> Result<NumSet, AllocError>
    ensures both { IfOk result (λ s. (n : ℕ) → has s.runs n ≡ (has first.now.runs n && has second.now.runs n)) }
    ensures valid { IfOk result (λ s. AreRuns s.runs) }
    ensures valid_first { AreRuns first.now.runs }
{
    first.join(alloc, second, Join::Both)
}

/// The numbers of the first set that the second doesn't have.
pub(crate) fn without(alloc: Global, first: &NumSet, second: &NumSet) -> Result<NumSet, AllocError>
    ensures rest { IfOk result (λ s. (n : ℕ) → has s.runs n ≡ (has first.now.runs n && not (has second.now.runs n))) }
    ensures valid { IfOk result (λ s. AreRuns s.runs) }
    ensures valid_first { AreRuns first.now.runs }
{
    first.join(alloc, second, Join::FirstAlone)
}

/// The numbers of a set between two values, both included.
pub(crate) fn clip(alloc: Global, set: &NumSet, from: u32, to: u32) -> Result<NumSet, AllocError>
    requires from { 1 ≤ from }
    requires to { to ≤ 999999 }
    ensures numbers { IfOk result (λ s. numbers_of s.runs ≡ from_number from (up_to to (numbers_of set.now.runs))) }
    ensures valid { IfOk result (λ _. AreRuns set.now.runs) }
{
    let mut span = NumSet::new(alloc);
    insert_span(&mut span, from, to)?;
    common(alloc, set, &span)
}
