// Ranges of messages, from number to number.
ghost use Rattle.std.specs.Prelude.{◌≡◌};
ghost use Rattle.mh_sequences.specs.Runs.{numbers_of};
ghost use Rattle.msg_ranges.specs.Choosing.{Gives, GivesSome};
ghost use Rattle.msg_ranges.specs.Selection.{between, counted as counted_from, one as one_of};

use crate::SelectFault;
use crate::counting::{take_from, take_up_to};
use crate::sets::clip;
use mh_base::MsgNum;
use mh_sequences::NumSet;
use std::alloc::Global;

/// The set, or a refusal where it is empty.
pub(crate) fn some_or(fault: SelectFault, set: NumSet) -> Result<NumSet, SelectFault>
    ensures { GivesSome fault set result }
{
    if set.is_empty() { Err(fault) } else { Ok(set) }
}

/// The message of a number.
pub(crate) fn one(
    alloc: Global,
    index: u64,
    listing: &NumSet,
    number: Option<MsgNum>,
) -> Result<NumSet, SelectFault>
    ensures { Gives index (one_of index (numbers_of listing.now.runs) number) result }
{
    let Some(n) = number else {
        return Err(SelectFault::Absent(index));
    };
    let set = clip(alloc, listing, n.get(), n.get())?;
    some_or(SelectFault::Absent(index), set)
}

/// The messages from one number to another.
pub(crate) fn range(
    alloc: Global,
    index: u64,
    listing: &NumSet,
    from: Option<MsgNum>,
    to: Option<MsgNum>,
) -> Result<NumSet, SelectFault>
    ensures { Gives index (between index (numbers_of listing.now.runs) from to) result }
{
    let (Some(from), Some(to)) = (from, to) else {
        return Err(SelectFault::Absent(index));
    };
    let set = clip(alloc, listing, from.get(), to.get())?;
    some_or(SelectFault::EmptyRange(index), set)
}

/// So many messages from a number on, or up to it.
pub(crate) fn counted(
    alloc: Global,
    index: u64,
    listing: &NumSet,
    number: Option<MsgNum>,
    up: bool,
    count: u32,
) -> Result<NumSet, SelectFault>
    ensures { Gives index (counted_from index (numbers_of listing.now.runs) number up count) result }
{
    let Some(n) = number else {
        return Err(SelectFault::Absent(index));
    };
    let set = if up {
        take_from(alloc, listing, n.get(), count)?
    } else {
        take_up_to(alloc, listing, n.get(), count)?
    };
    some_or(SelectFault::EmptyRange(index), set)
}
