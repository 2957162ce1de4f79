// The messages that one word designates.
ghost use Rattle.std.specs.Prelude.{◌≡◌, ◌||◌};
ghost use Rattle.mh_sequences.specs.Runs.{numbers_of};
ghost use Rattle.msg_ranges.specs.Choosing.{Gives};
ghost use Rattle.msg_ranges.specs.Selection.{between, chosen, counted as counted_from, goes_up as goes_up_by, is_end as is_end_name, named as named_number, one as one_of, unless_void, marks_of};

use crate::members::{count_members, member_at, members, others};
use crate::naming::{current, goes_up, is_end, named};
use crate::ranges::{counted, one, range, some_or};
use crate::sets::clip;
use crate::{Base, SelectFault, Spec, Way};
use mh_sequences::{NumSet, Sequences};
use std::alloc::Global;

fn choose_one(
    alloc: Global,
    index: u64,
    listing: &NumSet,
    sequences: &Sequences,
    name: &Base,
) -> Result<NumSet, SelectFault>
    ensures { Gives index
        (unless_void index (is_end_name name.now) (numbers_of listing.now.runs)
        (one_of index (numbers_of listing.now.runs)
        (named_number (numbers_of listing.now.runs) sequences.now.cur name.now))) result }
{
    if is_end(name) && listing.is_empty() {
        return Err(SelectFault::EmptyRange(index));
    }
    one(alloc, index, listing, named(listing, sequences, name))
}

fn choose_range(
    alloc: Global,
    index: u64,
    listing: &NumSet,
    sequences: &Sequences,
    from: &Base,
    to: &Base,
) -> Result<NumSet, SelectFault>
    ensures { Gives index
        (unless_void index (is_end_name from.now || is_end_name to.now) (numbers_of listing.now.runs)
        (between index (numbers_of listing.now.runs)
        (named_number (numbers_of listing.now.runs) sequences.now.cur from.now)
        (named_number (numbers_of listing.now.runs) sequences.now.cur to.now))) result }
{
    if (is_end(from) || is_end(to)) && listing.is_empty() {
        return Err(SelectFault::EmptyRange(index));
    }
    range(
        alloc,
        index,
        listing,
        named(listing, sequences, from),
        named(listing, sequences, to),
    )
}

fn choose_count(
    alloc: Global,
    index: u64,
    listing: &NumSet,
    sequences: &Sequences,
    name: &Base,
    way: Way,
    count: u32,
) -> Result<NumSet, SelectFault>
    ensures { Gives index
        (unless_void index (is_end_name name.now) (numbers_of listing.now.runs)
        (counted_from index (numbers_of listing.now.runs)
        (named_number (numbers_of listing.now.runs) sequences.now.cur name.now)
        (goes_up_by name.now way) count)) result }
{
    if is_end(name) && listing.is_empty() {
        return Err(SelectFault::EmptyRange(index));
    }
    counted(
        alloc,
        index,
        listing,
        named(listing, sequences, name),
        goes_up(name, way),
        count,
    )
}

/// What the word at this place designates, or why it is refused.
pub(crate) fn choose(
    alloc: Global,
    index: u64,
    spec: &Spec,
    listing: &NumSet,
    sequences: &Sequences,
) -> Result<NumSet, SelectFault>
    ensures { Gives index (chosen index (numbers_of listing.now.runs) (marks_of sequences.now) spec.now) result }
{
    let set = match spec {
        Spec::One(name) => return choose_one(alloc, index, listing, sequences, name),
        Spec::Range(from, to) => return choose_range(alloc, index, listing, sequences, from, to),
        Spec::Count(name, way, count) => {
            return choose_count(alloc, index, listing, sequences, name, *way, *count);
        }
        Spec::All => {
            let set = clip(alloc, listing, 1, 999_999)?;
            return some_or(SelectFault::EmptyRange(index), set);
        }
        Spec::Sequence(name) => members(alloc, listing, sequences, name)?,
        Spec::SequenceCount(name, way, count) => {
            let members = members(alloc, listing, sequences, name)?;
            count_members(alloc, &members, *way, *count)?
        }
        Spec::SequenceSpot(name, spot) => {
            let members = members(alloc, listing, sequences, name)?;
            member_at(alloc, &members, current(sequences), *spot)?
        }
        Spec::Negated(name) => others(alloc, listing, sequences, name)?,
    };
    some_or(SelectFault::EmptySequence(index), set)
}
