// Locks and runs that end.
ghost use Rattle.std.specs.Prelude.{◌≡◌, ◌&&◌, ◌||◌, ◌==◌, not, ◌↔◌, IsTrue, OnOk, OnErr, IfOk, ℕ, if◌then◌else◌, false};
ghost use Rattle.folder_files.specs.Histories.{after_end};
ghost use Rattle.folder_files.specs.Places.{same_place};
ghost use Rattle.folder_files.specs.Steps.{made};
ghost use Rattle.folder_files.specs.Worlds.{shown, holds_of};
ghost use Rattle.folder_files.specs.declared.place.Place.{Place};
ghost use Rattle.folder_files.specs.declared.step.Step.TheVariants as step;

use crate::disk::is_there;
use folder_files::{Held, LockList, Place, World};
use mh_base::Duplicate;
use std::alloc::{AllocError, Global};

/// The run has the lock of a directory that is there.
pub fn lock(alloc: Global, world: &mut World, run: u128, place: &Place) -> Result<(), AllocError>
    ensures ok { OnOk result (shown world.new ≡ made (shown world.old) run (step.Lock place.now)) }
    ensures err { OnErr result (world.new ≡ world.old) }
{
    if !is_there(world, place) {
        return Ok(());
    }
    let place = place.duplicate(alloc)?;
    world.locks.push(Held { place, run })
}

fn is_lock(held: &Held, run: u128, place: &Place) -> bool
    ensures { IsTrue result ↔ ((held.now.run ≡ run) × (held.now.place ≡ place.now)) }
{
    held.run == run && held.place.same(place)
}

/// The locks but this run's of this directory.
fn without_lock(
    alloc: Global,
    locks: &[Held],
    run: u128,
    place: &Place,
) -> Result<LockList, AllocError>
    ensures { IfOk result
        (λ kept. (p : Place) (r : ℕ)
        → holds_of kept p r ≡ (not (same_place place.now p && run == r) && holds_of locks.now p r)) }
{
    let mut kept = LockList::new(alloc);
    for held in locks {
        if is_lock(held, run, place) {
            continue;
        }
        kept.push(held.duplicate(alloc)?)?;
    }
    Ok(kept)
}

/// This run's lock of the directory falls.
pub fn unlock(alloc: Global, world: &mut World, run: u128, place: &Place) -> Result<(), AllocError>
    ensures ok { OnOk result (shown world.new ≡ made (shown world.old) run (step.Unlock place.now)) }
    ensures err { OnErr result (world.new ≡ world.old) }
{
    let kept = without_lock(alloc, world.locks.as_slice(), run, place)?;
    world.locks = kept;
    Ok(())
}

/// The locks but this run's.
fn without_run(alloc: Global, locks: &[Held], run: u128) -> Result<LockList, AllocError>
    ensures { IfOk result
        (λ kept. (p : Place) (r : ℕ) → holds_of kept p r ≡ (if run == r then false else holds_of locks.now p r)) }
{
    let mut kept = LockList::new(alloc);
    for held in locks {
        if held.run == run {
            continue;
        }
        kept.push(held.duplicate(alloc)?)?;
    }
    Ok(kept)
}

/// The run has ended, and its locks fall.
pub fn end(alloc: Global, world: &mut World, run: u128) -> Result<(), AllocError>
    ensures ok { OnOk result (shown world.new ≡ after_end (shown world.old) run) }
    ensures err { OnErr result (world.new ≡ world.old) }
{
    let kept = without_run(alloc, world.locks.as_slice(), run)?;
    world.ended.push(run)?;
    world.locks = kept;
    Ok(())
}
