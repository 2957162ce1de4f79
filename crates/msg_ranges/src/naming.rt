// Names among a folder's messages.
ghost use Rattle.std.specs.Prelude.{◌≡◌, ◌≤◌};
ghost use Rattle.mh_sequences.specs.Runs.{numbers_of};
ghost use Rattle.msg_ranges.specs.Selection.{existing, current as current_of, goes_up as goes_up_by, is_end as is_end_name, named as named_number};

use crate::counting::{above, below, greatest};
use crate::{Base, Way};
use mh_base::MsgNum;
use mh_sequences::{NumSet, Sequences};

/// The current number, or 0 where there is none.
pub(crate) fn current(sequences: &Sequences) -> u32
    ensures value { result ≡ current_of sequences.now.cur }
    ensures top { result ≤ 999999 }
{
    match sequences.cur() {
        Some(cur) => cur.get(),
        None => 0,
    }
}

/// The current number, where that message exists.
fn present(listing: &NumSet, cur: Option<MsgNum>) -> Option<MsgNum>
    ensures { result ≡ existing (numbers_of listing.now.runs) cur }
{
    let cur = cur?;
    if listing.has(cur) { Some(cur) } else { None }
}

/// The number that a name stands for.
pub(crate) fn named(listing: &NumSet, sequences: &Sequences, name: &Base) -> Option<MsgNum>
    ensures { result ≡ named_number (numbers_of listing.now.runs) sequences.now.cur name.now }
{
    match name {
        Base::Number(n) => Some(*n),
        Base::First => listing.at(0),
        Base::Last => greatest(listing),
        Base::Cur => present(listing, sequences.cur()),
        Base::Prev => below(listing, current(sequences)),
        Base::Next => above(listing, current(sequences)),
    }
}

/// Whether a count goes up from this name.
pub(crate) fn goes_up(name: &Base, way: Way) -> bool
    ensures { result ≡ goes_up_by name.now way }
{
    match way {
        Way::Plus => true,
        Way::Minus => false,
        Way::Unsigned => !matches!(name, Base::Last | Base::Prev),
    }
}

/// Whether a name is an end of the folder.
pub(crate) fn is_end(name: &Base) -> bool
    ensures { result ≡ is_end_name name.now }
{
    matches!(name, Base::First | Base::Last)
}
