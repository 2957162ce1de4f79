// Where messages go.
ghost use Rattle.std.specs.Prelude.{◌≡◌, ◌≤◌};
ghost use Rattle.message_moves.specs.Copying.{highest_of};

use folder_files::Place;
use mh_base::{FolderName, List, MsgNum};

/// A folder to which messages go, where it is, and the highest number of a message there, where it has any.
#[derive(Drop)]
pub struct Destination {
    pub folder: FolderName,
    pub place: Place,
    pub highest: Option<MsgNum>,
}

pub type DestinationList = List<Destination>;

/// The number above which the next copy is put.
pub(crate) fn highest(destination: &Destination) -> u32
    ensures value { result ≡ highest_of destination.now.highest }
    ensures range { result ≤ 999999 }
{
    match destination.highest {
        Some(number) => number.get(),
        None => 0,
    }
}
