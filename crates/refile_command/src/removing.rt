// Messages leave a folder, and then its sequences.
ghost use Rattle.std.specs.Prelude.{◌≡◌, ◌∷◌, [], IfOk};
ghost use Rattle.file_plans.specs.Plan.{Hand as Kept};
ghost use Rattle.file_plans.specs.Follows.{Follows, by_hand};
ghost use Rattle.mh_sequences.specs.Runs.{numbers_of};
ghost use Rattle.mh_sequences.specs.declared.mark.Mark.TheVariants.{Withdraw};
ghost use Rattle.step_plans.specs.Hands.{mail_place};
ghost use Rattle.step_plans.specs.PlanFaults.{plan_cause};
ghost use Rattle.refile_plans.specs.Rmm.{all_removed, removed_safely, removed_marked};

use command_stages::numbers;
use folder_files::{Files, Place};
use mh_base::{Entry, List, MsgNum, entry_name};
use mh_sequences::{Mark, MarkList, NumSet};
use opened_folders::{Opened, commit_marks};
use std::alloc::{AllocError, Global};
use step_plans::{Hand, PlanFault, remove, sync};

/// These messages leave the folder, one after another.
fn remove_all<F: Files>(
    alloc: Global,
    run: u128,
    files: &mut F,
    place: &Place,
    numbers: &[MsgNum],
    backup: bool,
) -> Result<(), PlanFault>
    ensures { (h : Kept)
        → Follows run plan_cause (all_removed place.now backup numbers.now) (by_hand h (F.state files.old))
        (by_hand h (F.state files.new)) result }
{
    for number in numbers {
        remove(alloc, run, files, place, *number, backup)?;
    }
    Ok(())
}

/// And the folder is made safe.
fn remove_safely<F: Files>(
    alloc: Global,
    run: u128,
    files: &mut F,
    place: &Place,
    numbers: &[MsgNum],
    backup: bool,
) -> Result<(), PlanFault>
    ensures { (h : Kept)
        → Follows run plan_cause (removed_safely place.now backup numbers.now) (by_hand h (F.state files.old))
        (by_hand h (F.state files.new)) result }
{
    let name = entry_name(alloc, &Entry::LockFile)?;
    remove_all(alloc, run, files, place, numbers, backup)?;
    sync(alloc, run, files, place, &name)
}

pub(crate) fn withdrawal(alloc: Global, chosen: NumSet) -> Result<MarkList, AllocError>
    ensures { IfOk result (λ marks. marks ≡ Withdraw chosen ∷ []) }
{
    let mut marks = List::new(alloc);
    marks.push(Mark::Withdraw { numbers: chosen })?;
    Ok(marks)
}

/// The chosen messages leave the folder, which is made safe, and then all its sequences.
pub(crate) fn remove_marked<F: Files>(
    alloc: Global,
    hand: &mut Hand,
    files: &mut F,
    opened: &mut Opened,
    chosen: NumSet,
    backup: bool,
) -> Result<(), PlanFault>
    ensures plan { Follows hand.old.run plan_cause
        (removed_marked hand.old.run (mail_place hand.old) backup opened.old (numbers_of chosen.runs))
        (by_hand hand.old.kept (F.state files.old)) (by_hand hand.new.kept (F.state files.new)) result }
    ensures same { (hand.new.run ≡ hand.old.run) × (hand.new.mail ≡ hand.old.mail) }
{
    let numbers = numbers(alloc, &chosen)?;
    let marks = withdrawal(alloc, chosen)?;
    remove_safely(
        alloc,
        hand.run(),
        files,
        opened.place(),
        numbers.as_slice(),
        backup,
    )?;
    commit_marks(alloc, hand, files, opened, marks.as_slice())
}
