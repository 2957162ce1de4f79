// Members of sequences.
ghost use Rattle.std.specs.Prelude.{◌≡◌, ◌≤◌, IfOk};
ghost use Rattle.mh_sequences.specs.Runs.{numbers_of};
ghost use Rattle.msg_ranges.specs.Selection.{counted_members, members as members_of, others as others_of, spotted, marks_of};

use crate::counting::{take_from, take_up_to};
use crate::sets::{common, without};
use crate::{Spot, Way};
use mh_sequences::{NumSet, SeqName, Sequences};
use std::alloc::{AllocError, Global};

/// The members of a sequence that exist.
pub(crate) fn members(
    alloc: Global,
    listing: &NumSet,
    sequences: &Sequences,
    name: &SeqName,
) -> Result<NumSet, AllocError>
    ensures { IfOk result
        (λ s. numbers_of s.runs ≡ members_of (numbers_of listing.now.runs) (marks_of sequences.now) name.now) }
{
    match sequences.get(name) {
        Some(set) => common(alloc, listing, set),
        None => Ok(NumSet::new(alloc)),
    }
}

/// The messages that are no members of a sequence.
pub(crate) fn others(
    alloc: Global,
    listing: &NumSet,
    sequences: &Sequences,
    name: &SeqName,
) -> Result<NumSet, AllocError>
    ensures { IfOk result
        (λ s. numbers_of s.runs ≡ others_of (numbers_of listing.now.runs) (marks_of sequences.now) name.now) }
{
    let none = NumSet::new(alloc);
    let set = match sequences.get(name) {
        Some(set) => set,
        None => &none,
    };
    without(alloc, listing, set)
}

/// So many members from the first on, or up to the last.
pub(crate) fn count_members(
    alloc: Global,
    members: &NumSet,
    way: Way,
    count: u32,
) -> Result<NumSet, AllocError>
    ensures { IfOk result (λ s. numbers_of s.runs ≡ counted_members way count (numbers_of members.now.runs)) }
{
    match way {
        Way::Unsigned | Way::Plus => take_from(alloc, members, 1, count),
        Way::Minus => take_up_to(alloc, members, 999_999, count),
    }
}

/// One member.
pub(crate) fn member_at(
    alloc: Global,
    members: &NumSet,
    cur: u32,
    spot: Spot,
) -> Result<NumSet, AllocError>
    requires { cur ≤ 999999 }
    ensures { IfOk result (λ s. numbers_of s.runs ≡ spotted cur spot (numbers_of members.now.runs)) }
{
    match spot {
        Spot::First => take_from(alloc, members, 1, 1),
        Spot::Last => take_up_to(alloc, members, 999_999, 1),
        Spot::Next => take_from(alloc, members, cur + 1, 1),
        Spot::Prev => take_up_to(alloc, members, cur.saturating_sub(1), 1),
    }
}
