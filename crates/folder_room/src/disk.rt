// Changes of the directories of a world.
ghost use Rattle.std.specs.Prelude.{◌≡◌, OnOk, OnErr, reverse, Some, None};
ghost use Rattle.folder_files.specs.Directory.{now_in};
ghost use Rattle.folder_room.specs.Positions.{with_change, with_sync};
ghost use Rattle.folder_files.specs.Steps.{changed, synced};
ghost use Rattle.folder_files.specs.Worlds.{shown, shown_directory};

use crate::places::position;
use crate::settled::settled;
use crate::slots::led;
use folder_files::{Change, ChangeList, Directory, Place, SlotList, World};
use mh_base::{Duplicate, Name};
use std::alloc::{AllocError, Global};

/// The file to which the name leads now.
pub fn leads(world: &World, place: &Place, name: &Name) -> Option<u64>
    ensures { result ≡ now_in ((shown world.now).directories place.now) name.now }
{
    let directories = world.directories.as_slice();
    match position(directories, place) {
        Some(index) => {
            let directory = &directories[index];
            led(
                directory.safe.as_slice(),
                directory.pending.as_slice(),
                name,
            )
        }
        None => None,
    }
}

/// Whether the directory is there.
pub fn is_there(world: &World, place: &Place) -> bool
    ensures { result ≡ ((shown world.now).directories place.now).there }
{
    match position(world.directories.as_slice(), place) {
        Some(_) => true,
        None => false,
    }
}

fn push_change(directory: &mut Directory, change: Change) -> Result<(), AllocError>
    ensures place { directory.new.place ≡ directory.old.place }
    ensures ok { OnOk result (shown_directory directory.new ≡ changed (shown_directory directory.old) change) }
    ensures err { OnErr result (directory.new ≡ directory.old) }
{
    directory.pending.push(change)
}

fn sync_directory(alloc: Global, directory: &mut Directory) -> Result<(), AllocError>
    ensures place { directory.new.place ≡ directory.old.place }
    ensures ok { OnOk result (shown_directory directory.new ≡ synced (shown_directory directory.old)) }
    ensures err { OnErr result (directory.new ≡ directory.old) }
{
    let safe = directory.safe.duplicate(alloc)?;
    let slots = settled(alloc, safe.into_vec(), directory.pending.as_slice())?;
    directory.safe = SlotList::from_vec(slots);
    directory.pending = ChangeList::new(alloc);
    Ok(())
}

/// Changes the directory, where it is there.
pub fn change_at(world: &mut World, place: &Place, change: Change) -> Result<(), AllocError>
    ensures ok { OnOk result (shown world.new ≡ with_change (shown world.old) place.now change) }
    ensures err { OnErr result (world.new ≡ world.old) }
{
    match position(world.directories.as_slice(), place) {
        Some(index) => push_change(world.directories.get_mut(index), change),
        None => Ok(()),
    }
}

/// Makes the changes of the directory safe, where it is there.
pub fn sync_at(alloc: Global, world: &mut World, place: &Place) -> Result<(), AllocError>
    ensures ok { OnOk result (shown world.new ≡ with_sync (shown world.old) place.now) }
    ensures err { OnErr result (world.new ≡ world.old) }
{
    match position(world.directories.as_slice(), place) {
        Some(index) => sync_directory(alloc, world.directories.get_mut(index)),
        None => Ok(()),
    }
}
