// Steps that make files and change them.
ghost use Rattle.std.specs.Prelude.{◌≡◌, ◌<◌, ◌==◌, OnOk, OnErr, IfSome, IfNone, length, ℕ};
ghost use Rattle.folder_room.specs.Positions.{with_new, SkipsBy, IsAtBy};
ghost use Rattle.folder_files.specs.Steps.{made};
ghost use Rattle.folder_files.specs.Worlds.{shown, next_of};
ghost use Rattle.folder_files.specs.declared.step.Step.TheVariants as step;

use crate::disk::{change_at, is_there, leads};
use folder_files::{Change, File, Place, World};
use mh_base::{Bytes, Duplicate, Name};
use std::alloc::{AllocError, Global};

/// One above the greatest id, where there is such an id.
fn next_file(files: &[File]) -> Option<u64>
    ensures { IfSome result (λ n. n ≡ next_of files.now) }
{
    match files.split_first() {
        None => Some(0),
        Some((file, rest)) => {
            let next = file.id.checked_add(1)?;
            Some(next.max(next_file(rest)?))
        }
    }
}

fn create_free(
    alloc: Global,
    world: &mut World,
    place: &Place,
    name: &Name,
    bytes: &Bytes,
) -> Result<(), AllocError>
    ensures ok { OnOk result (shown world.new ≡ with_new (shown world.old) place.now name.now bytes.now) }
    ensures err { OnErr result (world.new ≡ world.old) }
{
    let Some(id) = next_file(world.files.as_slice()) else {
        return Err(AllocError);
    };
    let bytes = bytes.duplicate(alloc)?;
    let change = Change::Set(name.duplicate(alloc)?, id);
    world.files.push(File {
        id,
        bytes,
        safe: false,
    })?;
    match change_at(world, place, change) {
        Ok(()) => Ok(()),
        Err(wanting) => {
            world.files.pop();
            Err(wanting)
        }
    }
}

/// A new file under a free name of a directory that is there.
pub fn create(
    alloc: Global,
    world: &mut World,
    place: &Place,
    name: &Name,
    bytes: &Bytes,
) -> Result<(), AllocError>
    ensures ok { (run : ℕ)
        → OnOk result (shown world.new ≡ made (shown world.old) run (step.Create place.now name.now bytes.now)) }
    ensures err { OnErr result (world.new ≡ world.old) }
{
    if !is_there(world, place) {
        return Ok(());
    }
    match leads(world, place, name) {
        Some(_) => Ok(()),
        None => create_free(alloc, world, place, name, bytes),
    }
}

/// Where the file of this id stands.
pub fn file_position(files: &[File], id: u64) -> Option<usize>
    ensures found { IfSome result
        (λ i. (i < length files.now) × SkipsBy (λ x. x.id == id) files.now i × IsAtBy (λ x. x.id == id) files.now i) }
    ensures none { IfNone result (SkipsBy (λ x. x.id == id) files.now (length files.now)) }
{
    for index in 0..files.len() {
        if files[index].id == id {
            return Some(index);
        }
    }
    None
}

/// The bytes of the name's file outlast a crash.
pub fn sync_file(world: &mut World, place: &Place, name: &Name)
    ensures { (run : ℕ) → shown world.new ≡ made (shown world.old) run (step.SyncFile place.now name.now) }
{
    let Some(id) = leads(world, place, name) else {
        return;
    };
    if let Some(index) = file_position(world.files.as_slice(), id) {
        world.files.get_mut(index).safe = true;
    }
}
