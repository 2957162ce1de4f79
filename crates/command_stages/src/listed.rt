// The messages of a folder.
ghost use Rattle.std.specs.Prelude.{◌≡◌, ◌||◌, ℕ, IfOk, OnOk};
ghost use Rattle.mh_base.specs.Numbers.{number_of};
ghost use Rattle.mh_sequences.specs.Runs.{AreRuns, has, numbers_of};
ghost use Rattle.file_plans.specs.Plan.{Hand};
ghost use Rattle.file_plans.specs.Follows.{State, Follows, by_hand};
ghost use Rattle.file_plans.specs.Sightings.{has_number, is_this};
ghost use Rattle.step_plans.specs.CommandFaults.{command_cause};
ghost use Rattle.command_stages.specs.Listed.{names_by as names_by_plan, folder_listed as folder_listed_plan, numbers_listed};

use file_plans::{Listing, ask_list};
use folder_files::{Files, Place, Refusal};
use mh_base::{Duplicate, FolderName, MsgNum, Name, NameList};
use mh_sequences::{NumSet, Pile, Run};
use std::alloc::{AllocError, Global};
use step_plans::CommandFault;

fn names_from(
    alloc: Global,
    folder: &FolderName,
    listing: Listing,
) -> Result<NameList, CommandFault>
    ensures { (run : ℕ) (x : State) → Follows run command_cause (names_by_plan folder.now listing) x x result }
{
    match listing {
        Listing::Names(names) => Ok(names),
        Listing::Gone => Err(CommandFault::Refused(Refusal::NoFolder(folder.duplicate(alloc)?))),
    }
}

/// The names in a folder's place. A folder that isn't there is refused.
pub fn list_folder<F: Files>(
    alloc: Global,
    run: u128,
    files: &mut F,
    place: &Place,
    folder: &FolderName,
) -> Result<NameList, CommandFault>
    ensures { (h : Hand)
        → Follows run command_cause (folder_listed_plan place.now folder.now) (by_hand h (F.state files.old))
        (by_hand h (F.state files.new)) result }
{
    let listing = ask_list(alloc, run, files, place)?;
    names_from(alloc, folder, listing)
}

/// Notes the number that a name is, where it is one.
fn note(pile: &mut Pile, name: &Name) -> Result<(), AllocError>
    ensures { OnOk result ((n : ℕ) → has pile.new n ≡ (is_this n (number_of name.now) || has pile.old n)) }
{
    match MsgNum::read(name.bytes()) {
        Some(number) => pile.add_run(Run {
            from: number,
            to: number,
        }),
        None => Ok(()),
    }
}

/// The message numbers among the names, to which others may come.
pub fn noted(alloc: Global, names: &[Name]) -> Result<Pile, AllocError>
    ensures { IfOk result (λ pile. (n : ℕ) → has pile n ≡ has_number n names.now) }
{
    let mut pile = Pile::new(alloc);
    for name in names {
        note(&mut pile, name)?;
    }
    Ok(pile)
}

/// The message numbers among the names.
pub fn listed_numbers(alloc: Global, names: &[Name]) -> Result<NumSet, AllocError>
    ensures { IfOk result (λ s. numbers_of s.runs ≡ numbers_listed names.now) }
{
    noted(alloc, names)?.into_set()
}
