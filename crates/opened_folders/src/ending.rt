// How a command ends on a folder that it has begun.
ghost use Rattle.std.specs.Prelude.{◌≡◌};
ghost use Rattle.file_plans.specs.Plan.{Hand};
ghost use Rattle.file_plans.specs.Follows.{Follows, by_hand};
ghost use Rattle.file_plans.specs.Runs.{OfPlan};
ghost use Rattle.step_plans.specs.CommandFaults.{command_cause};
ghost use Rattle.opening_plans.specs.Ending.{Ends, finished, given_up};

use file_plans::{ask_unlock, attempt_unlock};
use folder_files::{Files, Place};
use std::alloc::Global;
use step_plans::CommandFault;

/// The folder's lock falls, and the command is done; where that fails it ends.
fn finish<F: Files>(
    alloc: Global,
    run: u128,
    files: &mut F,
    place: &Place,
) -> Result<(), CommandFault>
    ensures { (h : Hand)
        → Follows run command_cause (finished place.now) (by_hand h (F.state files.old))
        (by_hand h (F.state files.new)) result }
{
    ask_unlock(alloc, run, files, place)?;
    Ok(())
}

/// The folder's lock falls, and the command ends so, also where that failed.
fn give_up<F: Files>(
    alloc: Global,
    run: u128,
    files: &mut F,
    place: &Place,
    fault: CommandFault,
) -> Result<(), CommandFault>
    requires { command_cause fault ≡ OfPlan }
    ensures { (h : Hand)
        → Follows run command_cause (given_up place.now fault) (by_hand h (F.state files.old))
        (by_hand h (F.state files.new)) result }
{
    attempt_unlock(alloc, run, files, place)?;
    Err(fault)
}

/// Ends a command whose work on the folder ended so. The folder's lock falls: where all is done the command fails if
/// that does; a refusal, and a lock that another run has, stand in any case. After a fault, a name that was changed
/// meanwhile, and want of memory nothing more is done.
pub fn end<F: Files>(
    alloc: Global,
    run: u128,
    files: &mut F,
    place: &Place,
    done: Result<(), CommandFault>,
) -> Result<(), CommandFault>
    ensures { (h : Hand)
        → Ends run place.now done (by_hand h (F.state files.old)) (by_hand h (F.state files.new)) result }
{
    match done {
        Ok(()) => finish(alloc, run, files, place),
        Err(CommandFault::Refused(refusal)) => give_up(
            alloc,
            run,
            files,
            place,
            CommandFault::Refused(refusal),
        ),
        Err(CommandFault::Locked(other)) => {
            give_up(alloc, run, files, place, CommandFault::Locked(other))
        }
        Err(fault) => Err(fault),
    }
}
