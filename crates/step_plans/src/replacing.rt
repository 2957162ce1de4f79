// A new file in a name's place.
ghost use Rattle.std.specs.Prelude.{◌≡◌, OnOk};
ghost use Rattle.file_plans.specs.Plan.{Hand};
ghost use Rattle.file_plans.specs.Follows.{Follows, by_hand};
ghost use Rattle.step_plans.specs.PlanFaults.{plan_cause};
ghost use Rattle.step_plans.specs.Replacing.{renamed, synced, replaced};

use crate::PlanFault;
use crate::keeping::Kept;
use crate::meddling::hold_to;
use crate::writing::write;
use file_plans::{ask_rename, ask_sync_folder};
use folder_files::{Files, Place};
use mh_base::{Bytes, Name};
use std::alloc::Global;

/// The directory's changes are made safe; the name is the last that the call made there.
pub fn sync<F: Files>(
    alloc: Global,
    run: u128,
    files: &mut F,
    place: &Place,
    name: &Name,
) -> Result<(), PlanFault>
    ensures { (h : Hand)
        → Follows run plan_cause (synced place.now name.now) (by_hand h (F.state files.old))
        (by_hand h (F.state files.new)) result }
{
    let touched = ask_sync_folder(alloc, run, files, place)?;
    hold_to(alloc, place, name, touched)
}

pub(crate) fn rename<F: Files>(
    alloc: Global,
    run: u128,
    files: &mut F,
    place: &Place,
    from: &Name,
    to: &Name,
) -> Result<(), PlanFault>
    ensures { (h : Hand)
        → Follows run plan_cause (renamed place.now from.now to.now) (by_hand h (F.state files.old))
        (by_hand h (F.state files.new)) result }
{
    let touched = ask_rename(alloc, run, files, place, from, to)?;
    hold_to(alloc, place, from, touched)
}

/// A new file with these bytes takes a name's place, and stays there.
pub(crate) fn replace<F: Files>(
    alloc: Global,
    run: u128,
    kept: &mut Kept,
    files: &mut F,
    place: &Place,
    name: &Name,
    bytes: &mut Bytes,
) -> Result<(), PlanFault>
    ensures { Follows run plan_cause (replaced run place.now name.now bytes.old) (by_hand kept.old (F.state files.old))
        (by_hand kept.new (F.state files.new)) result }
{
    let temp = write(alloc, run, kept, files, place, bytes)?;
    rename(alloc, run, files, place, &temp, name)?;
    sync(alloc, run, files, place, name)
}
