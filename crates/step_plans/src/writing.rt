// A file made under the run's next temporary name.
ghost use Rattle.std.specs.Prelude.{◌≡◌, OnOk};
ghost use Rattle.folder_files.specs.Story.{FilesState};
ghost use Rattle.file_plans.specs.Plan.{Hand};
ghost use Rattle.file_plans.specs.Follows.{Follows, by_hand};
ghost use Rattle.step_plans.specs.Hands.{named};
ghost use Rattle.step_plans.specs.PlanFaults.{plan_cause};
ghost use Rattle.step_plans.specs.Replacing.{created, made_safe, written};

use crate::PlanFault;
use crate::keeping::Kept;
use crate::meddling::{enter_once, hold_to};
use file_plans::{ask_create, ask_sync_file};
use folder_files::{Files, Place};
use mh_base::{Bytes, Entry, Name, entry_name};
use std::alloc::Global;

/// The run's next temporary name.
pub(crate) fn next_name(alloc: Global, run: u128, kept: &mut Kept) -> Result<Name, PlanFault>
    ensures { (f : FilesState) → Follows run plan_cause (named run) (by_hand kept.old f) (by_hand kept.new f) result }
{
    let Some(number) = kept.temp() else {
        return Err(PlanFault::Memory);
    };
    Ok(entry_name(alloc, &Entry::Temp(run, number))?)
}

fn create<F: Files>(
    alloc: Global,
    run: u128,
    files: &mut F,
    place: &Place,
    name: &Name,
    bytes: &mut Bytes,
) -> Result<(), PlanFault>
    ensures plan { (h : Hand)
        → Follows run plan_cause (created place.now name.now bytes.old) (by_hand h (F.state files.old))
        (by_hand h (F.state files.new)) result }
    ensures kept { OnOk result (bytes.new ≡ bytes.old) }
{
    let entered = ask_create(alloc, run, files, place, name, bytes)?;
    enter_once(alloc, place, name, entered)
}

fn make_safe<F: Files>(
    alloc: Global,
    run: u128,
    files: &mut F,
    place: &Place,
    name: &Name,
) -> Result<(), PlanFault>
    ensures { (h : Hand)
        → Follows run plan_cause (made_safe place.now name.now) (by_hand h (F.state files.old))
        (by_hand h (F.state files.new)) result }
{
    let touched = ask_sync_file(alloc, run, files, place, name)?;
    hold_to(alloc, place, name, touched)
}

/// A file with these bytes is made under the run's next temporary name, and made safe.
pub(crate) fn write<F: Files>(
    alloc: Global,
    run: u128,
    kept: &mut Kept,
    files: &mut F,
    place: &Place,
    bytes: &mut Bytes,
) -> Result<Name, PlanFault>
    ensures plan { Follows run plan_cause (written run place.now bytes.old) (by_hand kept.old (F.state files.old))
        (by_hand kept.new (F.state files.new)) result }
    ensures kept { OnOk result (bytes.new ≡ bytes.old) }
{
    let temp = next_name(alloc, run, kept)?;
    create(alloc, run, files, place, &temp, bytes)?;
    make_safe(alloc, run, files, place, &temp)?;
    Ok(temp)
}
