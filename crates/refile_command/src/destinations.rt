// Folders that were begun, as messages go to them.
ghost use Rattle.std.specs.Prelude.{◌≡◌, map, IfOk};
ghost use Rattle.refile_plans.specs.Refile.{destination_of, greatest_of};

use message_moves::{Destination, DestinationList};
use mh_base::{Duplicate, MsgNum};
use mh_sequences::NumSet;
use opened_folders::Opened;
use std::alloc::{AllocError, Global};

/// The greatest of these numbers, if any.
fn greatest(listing: &NumSet) -> Option<MsgNum>
    ensures { result ≡ greatest_of listing.now.runs }
{
    let runs = listing.runs();
    if runs == 0 {
        return None;
    }
    match listing.run_at(runs - 1) {
        Some(run) => Some(run.to),
        None => None,
    }
}

fn destination(alloc: Global, opened: &Opened) -> Result<Destination, AllocError>
    ensures { IfOk result (λ to. to ≡ destination_of opened.now) }
{
    Ok(Destination {
        folder: opened.folder().duplicate(alloc)?,
        place: opened.place().duplicate(alloc)?,
        highest: greatest(opened.listing()),
    })
}

pub(crate) fn destinations(alloc: Global, opened: &[Opened]) -> Result<DestinationList, AllocError>
    ensures { IfOk result (λ to. to ≡ map destination_of opened.now) }
{
    let mut to = DestinationList::new(alloc);
    for one in opened {
        to.push(destination(alloc, one)?)?;
    }
    Ok(to)
}
