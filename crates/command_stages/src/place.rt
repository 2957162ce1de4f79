// Where a folder is.
ghost use Rattle.std.specs.Prelude.{◌≡◌, IfOk};
ghost use Rattle.folder_files.specs.declared.place.Place.TheVariants.{Folder};

use folder_files::Place;
use mh_base::{Duplicate, FolderName};
use std::alloc::{AllocError, Global};
use step_plans::Hand;

/// The folder of this name in the run's mail directory.
pub fn folder_place(alloc: Global, hand: &Hand, folder: &FolderName) -> Result<Place, AllocError>
    ensures { IfOk result (λ place. place ≡ Folder hand.now.mail folder.now) }
{
    Ok(Place::Folder(hand.mail().duplicate(alloc)?, folder.duplicate(alloc)?))
}
