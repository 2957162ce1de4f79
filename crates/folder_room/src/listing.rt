// The names of a directory, in byte order.
ghost use Rattle.std.specs.Prelude.{◌≡◌, IfOk, List, ℕ, map, is_some};
ghost use Rattle.std.specs.List.{All};
ghost use Rattle.mh_base.specs.Names.{IsName};
ghost use Rattle.folder_files.specs.Directory.{now_in};
ghost use Rattle.folder_files.specs.Steps.{IsAscending, IsListing, IsListed, has_text};
ghost use Rattle.folder_files.specs.Worlds.{shown, shown_directory, slot_of};

use crate::places::position;
use crate::settled::settled;
use folder_files::{Answer, Directory, Place, Slot, World};
use mh_base::{Bytes, Duplicate, Name, NameList};
use std::alloc::{AllocError, Global};

/// The bytes of the slots' names.
fn keys<'a>(alloc: Global, slots: &'a [Slot]) -> Result<Vec<&'a [u8]>, AllocError>
    ensures names { IfOk result (λ v. map (λ k. k.now) v.items ≡ map (λ s. s.name) slots.now) }
    ensures valid { IfOk result (λ v. All (λ k. IsName k.now) v.items) }
{
    let mut keys = Vec::new(alloc);
    for slot in slots {
        keys.push(slot.name.bytes())?;
    }
    Ok(keys)
}

/// The keys in byte order, each once.
fn ordered<'a>(alloc: Global, slots: &'a [Slot]) -> Result<Vec<&'a [u8]>, AllocError>
    ensures ascending { IfOk result (λ v. IsAscending (map (λ k. k.now) v.items)) }
    ensures same { IfOk result
        (λ v. (x : List ℕ) → has_text x (map (λ k. k.now) v.items) ≡ is_some (slot_of slots.now x)) }
    ensures valid { IfOk result (λ v. All (λ k. IsName k.now) v.items) }
{
    let mut keys = keys(alloc, slots)?;
    keys.sort()?;
    keys.dedup();
    Ok(keys)
}

fn names_of(alloc: Global, keys: &[&[u8]]) -> Result<NameList, AllocError>
    requires { All (λ k. IsName k.now) keys.now }
    ensures { IfOk result (λ names. names ≡ map (λ k. k.now) keys.now) }
{
    let mut names = NameList::new(alloc);
    for key in keys {
        match Name::new(Bytes::from_slice(alloc, key)?) {
            Some(name) => names.push(name)?,
            None => unreachable!(),
        }
    }
    Ok(names)
}

fn names_in(alloc: Global, slots: &[Slot]) -> Result<NameList, AllocError>
    ensures ascending { IfOk result (λ names. IsAscending names) }
    ensures same { IfOk result (λ names. (x : List ℕ) → has_text x names ≡ is_some (slot_of slots.now x)) }
{
    let keys = ordered(alloc, slots)?;
    names_of(alloc, &keys)
}

fn listing(alloc: Global, directory: &Directory) -> Result<NameList, AllocError>
    ensures { IfOk result (λ names. IsListing (shown_directory directory.now) names) }
{
    let safe = directory.safe.duplicate(alloc)?;
    let slots = settled(alloc, safe.into_vec(), directory.pending.as_slice())?;
    names_in(alloc, &slots)
}

pub fn list(alloc: Global, world: &World, place: &Place) -> Result<Answer, AllocError>
    ensures { IfOk result (λ a. IsListed ((shown world.now).directories place.now) a) }
{
    let directories = world.directories.as_slice();
    match position(directories, place) {
        Some(index) => Ok(Answer::Names(listing(alloc, &directories[index])?)),
        None => Ok(Answer::Gone),
    }
}
