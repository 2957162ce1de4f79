// Directories by their places.
ghost use Rattle.std.specs.Prelude.{◌≡◌, ◌<◌, length, IfSome, IfNone};
ghost use Rattle.folder_room.specs.Positions.{Skips, IsOf};

use folder_files::{Directory, Place};

/// Where the directory of this place stands.
pub fn position(directories: &[Directory], place: &Place) -> Option<usize>
    ensures found { IfSome result
        (λ i. (i < length directories.now) × Skips directories.now i place.now × IsOf directories.now i place.now) }
    ensures none { IfNone result (Skips directories.now (length directories.now) place.now) }
{
    for index in 0..directories.len() {
        if directories[index].place.same(place) {
            return Some(index);
        }
    }
    None
}
