// Steps that change the names of a directory.
ghost use Rattle.std.specs.Prelude.{◌≡◌, OnOk, OnErr, ℕ};
ghost use Rattle.folder_files.specs.Steps.{made};
ghost use Rattle.folder_files.specs.Worlds.{shown};
ghost use Rattle.folder_files.specs.declared.step.Step.TheVariants as step;

use crate::disk::{change_at, leads, sync_at};
use folder_files::{Change, Place, World};
use mh_base::{Duplicate, Name};
use std::alloc::{AllocError, Global};

/// A second name for a file, where the first leads to one and the second is free.
pub fn link(
    alloc: Global,
    world: &mut World,
    place: &Place,
    from: &Name,
    to: &Name,
) -> Result<(), AllocError>
    ensures ok { (run : ℕ)
        → OnOk result (shown world.new ≡ made (shown world.old) run (step.Link place.now from.now to.now)) }
    ensures err { OnErr result (world.new ≡ world.old) }
{
    let Some(file) = leads(world, place, from) else {
        return Ok(());
    };
    match leads(world, place, to) {
        None => change_at(world, place, Change::Set(to.duplicate(alloc)?, file)),
        Some(_) => Ok(()),
    }
}

/// Another name for a file; a name that is renamed to itself stays.
pub fn rename(
    alloc: Global,
    world: &mut World,
    place: &Place,
    from: &Name,
    to: &Name,
) -> Result<(), AllocError>
    ensures ok { (run : ℕ)
        → OnOk result (shown world.new ≡ made (shown world.old) run (step.Rename place.now from.now to.now)) }
    ensures err { OnErr result (world.new ≡ world.old) }
{
    if from.same(to) {
        return Ok(());
    }
    match leads(world, place, from) {
        None => Ok(()),
        Some(_) => change_at(
            world,
            place,
            Change::Moved(from.duplicate(alloc)?, to.duplicate(alloc)?),
        ),
    }
}

pub fn unlink(
    alloc: Global,
    world: &mut World,
    place: &Place,
    name: &Name,
) -> Result<(), AllocError>
    ensures ok { (run : ℕ)
        → OnOk result (shown world.new ≡ made (shown world.old) run (step.Unlink place.now name.now)) }
    ensures err { OnErr result (world.new ≡ world.old) }
{
    match leads(world, place, name) {
        None => Ok(()),
        Some(_) => change_at(world, place, Change::Gone(name.duplicate(alloc)?)),
    }
}

pub fn sync_folder(alloc: Global, world: &mut World, place: &Place) -> Result<(), AllocError>
    ensures ok { (run : ℕ) → OnOk result (shown world.new ≡ made (shown world.old) run (step.SyncFolder place.now)) }
    ensures err { OnErr result (world.new ≡ world.old) }
{
    sync_at(alloc, world, place)
}
