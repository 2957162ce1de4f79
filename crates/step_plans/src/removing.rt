// A message leaves its folder.
ghost use Rattle.file_plans.specs.Plan.{Hand};
ghost use Rattle.file_plans.specs.Follows.{Follows, by_hand};
ghost use Rattle.step_plans.specs.PlanFaults.{plan_cause};
ghost use Rattle.step_plans.specs.Removing.{message_removed};

use crate::PlanFault;
use crate::clearing::unlink;
use crate::replacing::rename;
use folder_files::{Files, Place};
use mh_base::{Entry, MsgNum, entry_name};
use std::alloc::Global;

/// Whatever stands at the number leaves the folder: it gets the number's backup name, whose file it replaces, or no
/// name at all. The number was changed meanwhile where nothing stands there.
pub fn remove<F: Files>(
    alloc: Global,
    run: u128,
    files: &mut F,
    place: &Place,
    number: MsgNum,
    backup: bool,
) -> Result<(), PlanFault>
    ensures { (h : Hand)
        → Follows run plan_cause (message_removed place.now number backup) (by_hand h (F.state files.old))
        (by_hand h (F.state files.new)) result }
{
    let name = entry_name(alloc, &Entry::Number(number))?;
    if backup {
        let old = entry_name(alloc, &Entry::Backup(number))?;
        rename(alloc, run, files, place, &name, &old)
    } else {
        unlink(alloc, run, files, place, &name)
    }
}
