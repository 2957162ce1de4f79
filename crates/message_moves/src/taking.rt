// A message is held aside.
ghost use Rattle.std.specs.Prelude.{◌≡◌, IfOk};
ghost use Rattle.mh_base.specs.Entries.{entry_text};
ghost use Rattle.file_plans.specs.Plan.{Hand};
ghost use Rattle.file_plans.specs.Follows.{Follows, by_hand};
ghost use Rattle.step_plans.specs.PlanFaults.{plan_cause};
ghost use Rattle.step_plans.specs.Replacing.{renamed};
ghost use Rattle.message_moves.specs.Moving.{number_taken};

use file_plans::ask_rename;
use folder_files::{Files, Place};
use mh_base::{Entry, MsgNum, Name, entry_name};
use std::alloc::Global;
use step_plans::{PlanFault, hold_to};

/// A name's file gets another name, where the first one was not changed meanwhile.
fn rename<F: Files>(
    alloc: Global,
    run: u128,
    files: &mut F,
    place: &Place,
    from: &Name,
    to: &Name,
) -> Result<(), PlanFault>
    ensures { (h : Hand)
        → Follows run plan_cause (renamed place.now from.now to.now) (by_hand h (F.state files.old))
        (by_hand h (F.state files.new)) result }
{
    let touched = ask_rename(alloc, run, files, place, from, to)?;
    hold_to(alloc, place, from, touched)
}

/// The message of this number is held aside: whatever stands at the number gets the run's held name of it, which is
/// answered. The number was changed meanwhile where nothing stands there.
pub fn take<F: Files>(
    alloc: Global,
    run: u128,
    files: &mut F,
    place: &Place,
    number: MsgNum,
) -> Result<Name, PlanFault>
    ensures plan { (h : Hand)
        → Follows run plan_cause (number_taken run place.now number) (by_hand h (F.state files.old))
        (by_hand h (F.state files.new)) result }
    ensures name { IfOk result (λ name. name ≡ entry_text (Entry.Held run number)) }
{
    let name = entry_name(alloc, &Entry::Number(number))?;
    let held = entry_name(alloc, &Entry::Held(run, number))?;
    rename(alloc, run, files, place, &name, &held)?;
    Ok(held)
}
