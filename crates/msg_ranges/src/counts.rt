// Counts behind a colon.
ghost use Rattle.std.specs.Prelude.{◌≡◌, Some};
ghost use Rattle.msg_ranges.specs.Forms.{count_in, signed as signed_count, spot_in};

use crate::{Spot, Way};
use mh_base::MsgNum;

/// How many messages, and which way they go.
#[derive(Clone, Copy)]
pub(crate) struct Counted {
    pub(crate) way: Way,
    pub(crate) number: MsgNum,
}

fn signed(way: Way, number: Option<MsgNum>) -> Option<Counted>
    ensures { result ≡ signed_count way number }
{
    match number {
        Some(number) => Some(Counted { way, number }),
        None => None,
    }
}

/// Reads a count.
pub(crate) fn read_count(text: &[u8]) -> Option<Counted>
    ensures { result ≡ count_in text.now }
{
    let (first, digits) = text.split_first()?;
    if *first == b'+' {
        signed(Way::Plus, MsgNum::read(digits))
    } else if *first == b'-' {
        signed(Way::Minus, MsgNum::read(digits))
    } else {
        signed(Way::Unsigned, MsgNum::read(text))
    }
}

/// Reads the name of a place in a sequence.
pub(crate) fn read_spot(text: &[u8]) -> Option<Spot>
    ensures { result ≡ spot_in text.now }
{
    if text == b"first".as_slice() {
        Some(Spot::First)
    } else if text == b"last".as_slice() {
        Some(Spot::Last)
    } else if text == b"next".as_slice() {
        Some(Spot::Next)
    } else if text == b"prev".as_slice() {
        Some(Spot::Prev)
    } else {
        None
    }
}
