// How a folder is begun that is made where it is missing.
ghost use Rattle.std.specs.Prelude.{◌≡◌};
ghost use Rattle.folder_files.specs.declared.place.Place.TheVariants.{Folder};
ghost use Rattle.file_plans.specs.Plan.{lifted};
ghost use Rattle.file_plans.specs.Follows.{Follows, by_hand};
ghost use Rattle.step_plans.specs.CommandFaults.{command_cause};
ghost use Rattle.step_plans.specs.Hands.{mail_place};
ghost use Rattle.step_plans.specs.Locking.{lock_name};
ghost use Rattle.step_plans.specs.PlanFaults.{plan_cause};
ghost use Rattle.command_stages.specs.Endings.{of_plan};
ghost use Rattle.opening_plans.specs.Making.{made_begun, once_made as once_made_of};

use crate::Opened;
use crate::beginning::begin;
use command_stages::{fault_in, folder_place};
use file_plans::ask_make_folder;
use folder_files::Files;
use mh_base::{Duplicate, Entry, FolderName, Name, entry_name};
use std::alloc::Global;
use step_plans::{CommandFault, Hand, PlanFault};

/// What a fault is once the run has made the folder.
fn once_made(lock: Name, fault: PlanFault) -> PlanFault
    requires { lock ≡ lock_name }
    ensures { result ≡ once_made_of fault }
{
    match fault {
        PlanFault::Absent(place) => PlanFault::Meddled(place, lock),
        other => other,
    }
}

fn begin_made<F: Files>(
    alloc: Global,
    hand: &mut Hand,
    files: &mut F,
    folder: &FolderName,
) -> Result<Opened, PlanFault>
    ensures plan { Follows hand.old.run plan_cause
        (made_begun hand.old.run (Folder hand.old.mail folder.now) (mail_place hand.old) folder.now)
        (by_hand hand.old.kept (F.state files.old)) (by_hand hand.new.kept (F.state files.new)) result }
    ensures same { (hand.new.run ≡ hand.old.run) × (hand.new.mail ≡ hand.old.mail) }
{
    let place = folder_place(alloc, hand, folder)?;
    let lock = entry_name(alloc, &Entry::LockFile)?;
    let _ = ask_make_folder(alloc, hand.run(), files, &place)?;
    match begin(alloc, hand, files, folder) {
        Ok(opened) => Ok(opened),
        Err(fault) => Err(once_made(lock, fault)),
    }
}

/// Makes the folder of a command where it is missing, and begins it.
pub fn open_made<F: Files>(
    alloc: Global,
    hand: &mut Hand,
    files: &mut F,
    folder: &FolderName,
) -> Result<Opened, CommandFault>
    ensures plan { Follows hand.old.run command_cause
        (lifted (of_plan folder.now)
        (made_begun hand.old.run (Folder hand.old.mail folder.now) (mail_place hand.old) folder.now))
        (by_hand hand.old.kept (F.state files.old)) (by_hand hand.new.kept (F.state files.new)) result }
    ensures run { hand.new.run ≡ hand.old.run }
    ensures mail { hand.new.mail ≡ hand.old.mail }
{
    let name = folder.duplicate(alloc)?;
    match begin_made(alloc, hand, files, folder) {
        Ok(opened) => Ok(opened),
        Err(fault) => Err(fault_in(name, fault)),
    }
}
