// The messages of a folder, and where each of them is to stand.
ghost use Rattle.std.specs.Prelude.{◌≡◌, IfOk};
ghost use Rattle.mh_sequences.specs.Runs.{numbers_of};
ghost use Rattle.pack_plans.specs.Places.{listing_after as listing_after_of, places_of};

use crate::places::{count, listing_after, places};
use command_stages::numbers;
use mh_base::{List, MsgNum};
use mh_sequences::NumSet;
use std::alloc::{AllocError, Global};

/// The numbers of a folder's messages, and beside each the one that it is to have.
#[derive(Drop)]
pub(crate) struct Standing {
    pub numbers: Vec<MsgNum>,
    pub places: List<MsgNum>,
}

/// Each message of a folder is to have the number of its place, from 1 on.
pub(crate) fn by_place(alloc: Global, listing: &NumSet) -> Result<Standing, AllocError>
    ensures { IfOk result
        (λ standing.
        (standing.numbers.items ≡ numbers_of listing.now.runs)
        × (standing.places ≡ places_of (numbers_of listing.now.runs))) }
{
    let numbers = numbers(alloc, listing)?;
    let places = places(alloc, count(listing))?;
    Ok(Standing { numbers, places })
}

impl Standing {
    /// The numbers of the messages, once those that move ended at these.
    pub fn after(&self, alloc: Global, ends: &[MsgNum]) -> Result<NumSet, AllocError>
        ensures { IfOk result
            (λ listing. listing.runs ≡ listing_after_of self.now.numbers.items self.now.places ends.now) }
    {
        listing_after(alloc, self.numbers.as_slice(), self.places.as_slice(), ends)
    }
}
