// A message takes its draft's place.
ghost use Rattle.std.specs.Prelude.{◌≡◌};
ghost use Rattle.file_plans.specs.Plan.{Hand as Kept};
ghost use Rattle.file_plans.specs.Follows.{Follows, by_hand};
ghost use Rattle.step_plans.specs.CommandFaults.{command_cause};
ghost use Rattle.step_plans.specs.PlanFaults.{plan_cause};
ghost use Rattle.step_plans.specs.Replacing.{renamed};
ghost use Rattle.draft_files.specs.Replacing.{draft_replaced, of_work, set_in_place as set_in_place_plan};

use crate::DraftName;
use command_stages::LIMIT;
use file_plans::ask_rename;
use folder_files::{Files, Place, Refusal, Which};
use mh_base::{Bytes, Duplicate, Name};
use std::alloc::Global;
use step_plans::{CommandFault, Hand, PlanFault, hold_to, sync, write_file};

/// What a fault of a plan on this name of the current directory is to the command.
fn fault_at(name: Name, fault: PlanFault) -> CommandFault
    ensures { result ≡ of_work name fault }
{
    match fault {
        PlanFault::Faulted => CommandFault::Faulted(Which::Files),
        PlanFault::Locked(place) => CommandFault::Locked(place),
        PlanFault::Meddled(place, other) => CommandFault::Meddled(place, other),
        PlanFault::Full => CommandFault::Meddled(Place::Work, name),
        PlanFault::Absent(place) => CommandFault::Meddled(place, name),
        PlanFault::TooLarge(length) => CommandFault::Refused(Refusal::TooLarge {
            length,
            limit: LIMIT,
        }),
        PlanFault::Memory => CommandFault::Memory,
    }
}

fn rename<F: Files>(
    alloc: Global,
    run: u128,
    files: &mut F,
    from: &Name,
    to: &Name,
) -> Result<(), PlanFault>
    ensures { (h : Kept)
        → Follows run plan_cause (renamed Place.Work from.now to.now) (by_hand h (F.state files.old))
        (by_hand h (F.state files.new)) result }
{
    let touched = ask_rename(alloc, run, files, &Place::Work, from, to)?;
    hold_to(alloc, &Place::Work, from, touched)
}

/// The message takes the draft's name: first it is made under a temporary name and made safe, and then the draft is set
/// aside.
fn set_in_place<F: Files>(
    alloc: Global,
    hand: &mut Hand,
    files: &mut F,
    draft: &DraftName,
    message: &mut Bytes,
) -> Result<(), PlanFault>
    ensures plan { Follows hand.old.run plan_cause (set_in_place_plan hand.old.run draft.now message.old)
        (by_hand hand.old.kept (F.state files.old)) (by_hand hand.new.kept (F.state files.new)) result }
    ensures run { hand.new.run ≡ hand.old.run }
    ensures mail { hand.new.mail ≡ hand.old.mail }
{
    let original = draft.original(alloc)?;
    let temp = write_file(alloc, hand, files, &Place::Work, message)?;
    rename(alloc, hand.run(), files, draft.name(), &original)?;
    rename(alloc, hand.run(), files, &temp, draft.name())?;
    sync(alloc, hand.run(), files, &Place::Work, draft.name())
}

/// The message takes the draft's name, and the draft stays under the name of its original.
pub fn replace_draft<F: Files>(
    alloc: Global,
    hand: &mut Hand,
    files: &mut F,
    draft: &DraftName,
    message: &mut Bytes,
) -> Result<(), CommandFault>
    ensures plan { Follows hand.old.run command_cause (draft_replaced hand.old.run draft.now message.old)
        (by_hand hand.old.kept (F.state files.old)) (by_hand hand.new.kept (F.state files.new)) result }
    ensures run { hand.new.run ≡ hand.old.run }
    ensures mail { hand.new.mail ≡ hand.old.mail }
{
    let name = draft.name().duplicate(alloc)?;
    match set_in_place(alloc, hand, files, draft, message) {
        Ok(()) => Ok(()),
        Err(fault) => Err(fault_at(name, fault)),
    }
}
