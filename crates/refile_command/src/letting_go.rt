// Folders that were begun are let go together.
ghost use Rattle.std.specs.Prelude.{◌≡◌, ◌∷◌, map};
ghost use Rattle.file_plans.specs.Plan.{Hand};
ghost use Rattle.file_plans.specs.Follows.{Follows, by_hand};
ghost use Rattle.file_plans.specs.Runs.{OfPlan};
ghost use Rattle.step_plans.specs.CommandFaults.{command_cause};
ghost use Rattle.refile_plans.specs.Gathering.{all_finished, all_given_up};
ghost use Rattle.refile_plans.specs.Gathers.{EndsAll};

use file_plans::attempt_unlock;
use folder_files::Files;
use opened_folders::{Opened, end};
use std::alloc::Global;
use step_plans::CommandFault;

/// Their locks fall, and the command is done; where one of these steps fails it ends.
fn finish_all<F: Files>(
    alloc: Global,
    run: u128,
    files: &mut F,
    opened: &[Opened],
) -> Result<(), CommandFault>
    ensures { (h : Hand)
        → Follows run command_cause (all_finished (map (λ o. o.place) opened.now)) (by_hand h (F.state files.old))
        (by_hand h (F.state files.new)) result }
{
    for one in opened {
        end(alloc, run, files, one.place(), Ok(()))?;
    }
    Ok(())
}

/// The source's lock falls, and then the others'.
fn finish<F: Files>(
    alloc: Global,
    run: u128,
    files: &mut F,
    source: &Opened,
    others: &[Opened],
) -> Result<(), CommandFault>
    ensures { (h : Hand)
        → Follows run command_cause (all_finished (source.now.place ∷ map (λ o. o.place) others.now))
        (by_hand h (F.state files.old)) (by_hand h (F.state files.new)) result }
{
    end(alloc, run, files, source.place(), Ok(()))?;
    finish_all(alloc, run, files, others)
}

/// Their locks fall, and the command ends so, also where that fails.
fn give_up_all<F: Files>(
    alloc: Global,
    run: u128,
    files: &mut F,
    opened: &[Opened],
    fault: CommandFault,
) -> Result<(), CommandFault>
    requires { command_cause fault ≡ OfPlan }
    ensures { (h : Hand)
        → Follows run command_cause (all_given_up (map (λ o. o.place) opened.now) fault) (by_hand h (F.state files.old))
        (by_hand h (F.state files.new)) result }
{
    for one in opened {
        attempt_unlock(alloc, run, files, one.place())?;
    }
    Err(fault)
}

/// The source's lock falls, and then the others'.
fn give_up<F: Files>(
    alloc: Global,
    run: u128,
    files: &mut F,
    source: &Opened,
    others: &[Opened],
    fault: CommandFault,
) -> Result<(), CommandFault>
    requires { command_cause fault ≡ OfPlan }
    ensures { (h : Hand)
        → Follows run command_cause (all_given_up (source.now.place ∷ map (λ o. o.place) others.now) fault)
        (by_hand h (F.state files.old)) (by_hand h (F.state files.new)) result }
{
    attempt_unlock(alloc, run, files, source.place())?;
    give_up_all(alloc, run, files, others, fault)
}

/// Ends a command whose work on these folders ended so. Their locks fall in the order in which they were had: where all
/// is done the command fails if that does; a refusal, and a lock that another run has, stand in any case. After a
/// fault, a name that was changed meanwhile, and want of memory nothing more is done.
pub(crate) fn end_all<F: Files>(
    alloc: Global,
    run: u128,
    files: &mut F,
    source: &Opened,
    others: &[Opened],
    done: Result<(), CommandFault>,
) -> Result<(), CommandFault>
    ensures { (h : Hand)
        → EndsAll run (source.now.place ∷ map (λ o. o.place) others.now) done (by_hand h (F.state files.old))
        (by_hand h (F.state files.new)) result }
{
    match done {
        Ok(()) => finish(alloc, run, files, source, others),
        Err(CommandFault::Refused(refusal)) => give_up(
            alloc,
            run,
            files,
            source,
            others,
            CommandFault::Refused(refusal),
        ),
        Err(CommandFault::Locked(place)) => give_up(
            alloc,
            run,
            files,
            source,
            others,
            CommandFault::Locked(place),
        ),
        Err(fault) => Err(fault),
    }
}
