// What the model's directories have now.
use folder_files::{Change, Directory, Place, Slot, World};
use mh_base::{Bytes, Duplicate, Name};
use std::alloc::Global;
use std::test::Fail;

fn file_of(slots: &[Slot], name: &Name) -> Option<u64> {
    let slot = slots.iter().find(|slot| slot.name.same(name))?;
    Some(slot.file)
}

/// The slots where this name leads to this file, or nowhere.
fn with(
    alloc: Global,
    mut slots: Vec<Slot>,
    name: &Name,
    file: Option<u64>,
) -> Result<Vec<Slot>, Fail> {
    slots.retain(|slot| !slot.name.same(name));
    if let Some(file) = file {
        let name = name.duplicate(alloc)?;
        slots.push(Slot { name, file })?;
    }
    Ok(slots)
}

fn changed(alloc: Global, slots: Vec<Slot>, change: &Change) -> Result<Vec<Slot>, Fail> {
    match change {
        Change::Set(name, file) => with(alloc, slots, name, Some(*file)),
        Change::Gone(name) => with(alloc, slots, name, None),
        Change::Moved(from, to) => {
            let file = file_of(&slots, from);
            let rest = with(alloc, slots, from, None)?;
            with(alloc, rest, to, file)
        }
    }
}

/// All names of a directory in byte order, and the files to which they lead.
fn slots_of(alloc: Global, directory: &Directory) -> Result<Vec<Slot>, Fail> {
    let mut slots = directory.safe.duplicate(alloc)?.into_vec();
    for change in directory.pending.as_slice() {
        slots = changed(alloc, slots, change)?;
    }
    slots.sort_unstable_by(|a, b| a.name.bytes().cmp(b.name.bytes()));
    Ok(slots)
}

fn directory_of<'a>(world: &'a World, place: &Place) -> Option<&'a Directory> {
    world
        .directories
        .as_slice()
        .iter()
        .find(|directory| directory.place.same(place))
}

/// Where this directory stands in the world's list.
pub fn directory_place(world: &World, place: &Place) -> Option<usize> {
    world
        .directories
        .as_slice()
        .iter()
        .position(|directory| directory.place.same(place))
}

/// The names of a directory, where it is there.
pub fn names_in(alloc: Global, world: &World, place: &Place) -> Result<Option<Vec<Slot>>, Fail> {
    match directory_of(world, place) {
        Some(directory) => Ok(Some(slots_of(alloc, directory)?)),
        None => Ok(None),
    }
}

/// The file to which a name leads.
pub fn led(alloc: Global, world: &World, place: &Place, name: &Name) -> Result<Option<u64>, Fail> {
    match names_in(alloc, world, place)? {
        Some(slots) => Ok(file_of(&slots, name)),
        None => Ok(None),
    }
}

pub fn bytes_of(world: &World, id: u64) -> Result<&Bytes, Fail> {
    match world.files.as_slice().iter().find(|file| file.id == id) {
        Some(file) => Ok(&file.bytes),
        None => Err("a name that leads to no file".into()),
    }
}

/// A number that no file of the world has.
pub fn free_id(world: &World) -> u64 {
    let mut free = 0;
    for file in world.files.as_slice() {
        free = file.id.saturating_add(1).max(free);
    }
    free
}
