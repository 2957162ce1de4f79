// A directory cleared of temporary names.
ghost use Rattle.std.specs.Prelude.{◌≡◌};
ghost use Rattle.mh_base.specs.Entries.{kind_of};
ghost use Rattle.folder_files.specs.Named.{is_temp as is_temp_kind};
ghost use Rattle.file_plans.specs.Plan.{Hand};
ghost use Rattle.file_plans.specs.Follows.{Follows, by_hand};
ghost use Rattle.step_plans.specs.Locking.{removed, cleared_one, cleared, clear_listed as clear_listed_plan, temps_cleared};
ghost use Rattle.step_plans.specs.PlanFaults.{plan_cause};

use crate::PlanFault;
use crate::meddling::{hold_to, place_gone};
use file_plans::{Listing, ask_list, ask_unlink};
use folder_files::{Files, Place};
use mh_base::{Entry, Name, entry_of};
use std::alloc::Global;

/// A name that this run made or saw is unlinked; it was changed meanwhile where it is gone.
pub fn unlink<F: Files>(
    alloc: Global,
    run: u128,
    files: &mut F,
    place: &Place,
    name: &Name,
) -> Result<(), PlanFault>
    ensures { (h : Hand)
        → Follows run plan_cause (removed place.now name.now) (by_hand h (F.state files.old))
        (by_hand h (F.state files.new)) result }
{
    let touched = ask_unlink(alloc, run, files, place, name)?;
    hold_to(alloc, place, name, touched)
}

fn is_temp(name: &Name) -> bool
    ensures { result ≡ is_temp_kind (kind_of name.now) }
{
    match entry_of(name.bytes()) {
        Entry::Temp(_, _) => true,
        _ => false,
    }
}

/// A temporary name is unlinked; any other stays.
fn clear_one<F: Files>(
    alloc: Global,
    run: u128,
    files: &mut F,
    place: &Place,
    name: &Name,
) -> Result<(), PlanFault>
    ensures { (h : Hand)
        → Follows run plan_cause (cleared_one place.now name.now) (by_hand h (F.state files.old))
        (by_hand h (F.state files.new)) result }
{
    if is_temp(name) {
        unlink(alloc, run, files, place, name)
    } else {
        Ok(())
    }
}

/// The temporary names among these are unlinked.
pub fn clear<F: Files>(
    alloc: Global,
    run: u128,
    files: &mut F,
    place: &Place,
    names: &[Name],
) -> Result<(), PlanFault>
    ensures { (h : Hand)
        → Follows run plan_cause (cleared place.now names.now) (by_hand h (F.state files.old))
        (by_hand h (F.state files.new)) result }
{
    for name in names {
        clear_one(alloc, run, files, place, name)?;
    }
    Ok(())
}

fn clear_listed<F: Files>(
    alloc: Global,
    run: u128,
    files: &mut F,
    place: &Place,
    listing: Listing,
) -> Result<(), PlanFault>
    ensures { (h : Hand)
        → Follows run plan_cause (clear_listed_plan place.now listing) (by_hand h (F.state files.old))
        (by_hand h (F.state files.new)) result }
{
    match listing {
        Listing::Names(names) => clear(alloc, run, files, place, names.as_slice()),
        Listing::Gone => Err(place_gone(alloc, place)?),
    }
}

/// The temporary names of the directory are unlinked.
pub fn clear_temps<F: Files>(
    alloc: Global,
    run: u128,
    files: &mut F,
    place: &Place,
) -> Result<(), PlanFault>
    ensures { (h : Hand)
        → Follows run plan_cause (temps_cleared place.now) (by_hand h (F.state files.old))
        (by_hand h (F.state files.new)) result }
{
    let listing = ask_list(alloc, run, files, place)?;
    clear_listed(alloc, run, files, place, listing)
}
