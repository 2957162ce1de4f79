// Where the messages of a folder come to stand.
ghost use Rattle.std.specs.Prelude.{◌≡◌, ◌≤◌, length, IfOk};
ghost use Rattle.std.specs.List.{range_with_len};
ghost use Rattle.mh_base.specs.Numbers.{IsMsgNum};
ghost use Rattle.mh_sequences.specs.Runs.{numbers_of};
ghost use Rattle.pack_plans.specs.Places.{listing_after as listing_after_of, staying as staying_of};

use mh_base::{List, MsgNum};
use mh_sequences::NumSet;
use opened_folders::number_set;
use std::alloc::{AllocError, Global};

/// How many messages there are.
pub(crate) fn count(listing: &NumSet) -> u32
    ensures value { result ≡ length (numbers_of listing.now.runs) }
    ensures range { result ≤ 999999 }
{
    if listing.is_empty() {
        0
    } else {
        listing.len() as u32
    }
}

fn message_number(value: u32) -> MsgNum
    requires { IsMsgNum value }
    ensures { result ≡ value }
{
    MsgNum::new(value).unwrap()
}

/// The numbers from 1 on, so many.
pub(crate) fn places(alloc: Global, count: u32) -> Result<List<MsgNum>, AllocError>
    requires { count ≤ 999999 }
    ensures { IfOk result (λ places. places ≡ range_with_len 1 count) }
{
    let mut places = List::new(alloc);
    for k in 0..count {
        places.push(message_number(k + 1))?;
    }
    Ok(places)
}

/// The messages that stand at their places.
fn staying(alloc: Global, numbers: &[MsgNum], places: &[MsgNum]) -> Result<List<MsgNum>, AllocError>
    ensures { IfOk result (λ staying. staying ≡ staying_of numbers.now places.now) }
{
    let mut staying = List::new(alloc);
    for i in 0..numbers.len().min(places.len()) {
        let (number, place) = (numbers[i], places[i]);
        if number == place {
            staying.push(number)?;
        }
    }
    Ok(staying)
}

/// The numbers of the folder's messages, once those that move ended at these.
pub(crate) fn listing_after(
    alloc: Global,
    numbers: &[MsgNum],
    places: &[MsgNum],
    ends: &[MsgNum],
) -> Result<NumSet, AllocError>
    ensures { IfOk result (λ listing. listing.runs ≡ listing_after_of numbers.now places.now ends.now) }
{
    let mut all = staying(alloc, numbers, places)?;
    for end in ends {
        all.push(*end)?;
    }
    number_set(alloc, all.as_slice())
}
