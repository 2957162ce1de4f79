// A new file in the current directory.
ghost use Rattle.std.specs.Prelude.{◌≡◌, ℕ};
ghost use Rattle.file_plans.specs.Follows.{Follows, State, by_hand};
ghost use Rattle.file_plans.specs.Plan.{Hand as Kept};
ghost use Rattle.step_plans.specs.PlanFaults.{plan_cause};
ghost use Rattle.mhstore_plans.specs.Files.{file_added, file_replaced, file_stored as file_stored_plan, if_free, linked, linked_by};

use file_plans::{Entered, ask_link};
use folder_files::{Files, Place};
use mh_base::{Bytes, Name};
use std::alloc::Global;
use step_plans::{Hand, PlanFault, meddled, replace_file, sync, unlink, write_file};

/// Whether the name was free, unless the file that it was to get was changed meanwhile.
fn free_by(alloc: Global, temp: &Name, entered: Entered) -> Result<bool, PlanFault>
    ensures { (run : ℕ) (x : State) → Follows run plan_cause (linked_by temp.now entered) x x result }
{
    match entered {
        Entered::Done => Ok(true),
        Entered::Exists => Ok(false),
        Entered::Gone => Err(meddled(alloc, &Place::Work, temp)?),
    }
}

/// The file of this temporary name gets the name, where that is free.
fn link<F: Files>(
    alloc: Global,
    run: u128,
    files: &mut F,
    temp: &Name,
    name: &Name,
) -> Result<bool, PlanFault>
    ensures { (h : Kept)
        → Follows run plan_cause (linked temp.now name.now) (by_hand h (F.state files.old))
        (by_hand h (F.state files.new)) result }
{
    let entered = ask_link(alloc, run, files, &Place::Work, temp, name)?;
    free_by(alloc, temp, entered)
}

/// Makes the directory safe, where the name was free.
fn sync_free<F: Files>(
    alloc: Global,
    run: u128,
    files: &mut F,
    name: &Name,
    free: bool,
) -> Result<bool, PlanFault>
    ensures { (h : Kept)
        → Follows run plan_cause (if_free name.now free) (by_hand h (F.state files.old))
        (by_hand h (F.state files.new)) result }
{
    if free {
        sync(alloc, run, files, &Place::Work, name)?;
        Ok(true)
    } else {
        Ok(false)
    }
}

/// A file with these bytes gets the name, where that is free.
fn add_file<F: Files>(
    alloc: Global,
    hand: &mut Hand,
    files: &mut F,
    name: &Name,
    bytes: &mut Bytes,
) -> Result<bool, PlanFault>
    ensures plan { Follows hand.old.run plan_cause (file_added hand.old.run name.now bytes.old)
        (by_hand hand.old.kept (F.state files.old)) (by_hand hand.new.kept (F.state files.new)) result }
    ensures same { (hand.new.run ≡ hand.old.run) × (hand.new.mail ≡ hand.old.mail) }
{
    let run = hand.run();
    let temp = write_file(alloc, hand, files, &Place::Work, bytes)?;
    let free = link(alloc, run, files, &temp, name)?;
    unlink(alloc, run, files, &Place::Work, &temp)?;
    sync_free(alloc, run, files, name, free)
}

/// A file with these bytes gets the name, whatever stood there.
fn put_file<F: Files>(
    alloc: Global,
    hand: &mut Hand,
    files: &mut F,
    name: &Name,
    bytes: &mut Bytes,
) -> Result<bool, PlanFault>
    ensures plan { Follows hand.old.run plan_cause (file_replaced hand.old.run name.now bytes.old)
        (by_hand hand.old.kept (F.state files.old)) (by_hand hand.new.kept (F.state files.new)) result }
    ensures same { (hand.new.run ≡ hand.old.run) × (hand.new.mail ≡ hand.old.mail) }
{
    replace_file(alloc, hand, files, &Place::Work, name, bytes)?;
    Ok(true)
}

/// A file with these bytes gets the name in the current directory, and is made safe there: it takes the place of a file
/// that stands there, or is not stored then. Says whether it was stored.
pub(crate) fn store_file<F: Files>(
    alloc: Global,
    hand: &mut Hand,
    files: &mut F,
    clobber: bool,
    name: &Name,
    bytes: &mut Bytes,
) -> Result<bool, PlanFault>
    ensures plan { Follows hand.old.run plan_cause (file_stored_plan hand.old.run clobber name.now bytes.old)
        (by_hand hand.old.kept (F.state files.old)) (by_hand hand.new.kept (F.state files.new)) result }
    ensures same { (hand.new.run ≡ hand.old.run) × (hand.new.mail ≡ hand.old.mail) }
{
    if clobber {
        put_file(alloc, hand, files, name, bytes)
    } else {
        add_file(alloc, hand, files, name, bytes)
    }
}
