// Messages are read, and tested.
ghost use Rattle.std.specs.Prelude.{◌≡◌, ◌++◌, [], ℕ, IfOk, OnOk};
ghost use Rattle.mh_base.specs.Entries.{entry_text};
ghost use Rattle.file_plans.specs.Plan.{Hand};
ghost use Rattle.file_plans.specs.Follows.{State, Follows, by_hand};
ghost use Rattle.step_plans.specs.CommandFaults.{command_cause};
ghost use Rattle.pick_plans.specs.Testing.{all_tested, kept_if, one_tested, tested_by};

use command_stages::LIMIT;
use file_plans::{Reading, ask_read};
use folder_files::{Files, Place, Refusal};
use mh_base::{Duplicate, Entry, List, MsgNum, entry_name};
use pick_expr::{Expr, holds};
use std::alloc::{AllocError, Global};
use step_plans::CommandFault;

fn meddled(alloc: Global, place: &Place, number: MsgNum) -> Result<CommandFault, AllocError>
    ensures { IfOk result (λ fault. fault ≡ CommandFault.Meddled place.now (entry_text (Entry.Number number))) }
{
    let name = entry_name(alloc, &Entry::Number(number))?;
    Ok(CommandFault::Meddled(place.duplicate(alloc)?, name))
}

/// Whether the message matches, by what reading it gave.
fn test_read(
    alloc: Global,
    place: &Place,
    expr: &Expr,
    number: MsgNum,
    reading: Reading,
) -> Result<bool, CommandFault>
    ensures { (run : ℕ) (x : State)
        → Follows run command_cause (tested_by place.now expr.now number reading) x x result }
{
    match reading {
        Reading::Content(bytes) => Ok(holds(alloc, expr, bytes.as_slice())?),
        Reading::Long(length) => Err(CommandFault::Refused(Refusal::TooLarge {
            length,
            limit: LIMIT,
        })),
        Reading::Gone => Err(meddled(alloc, place, number)?),
    }
}

fn test_one<F: Files>(
    alloc: Global,
    run: u128,
    files: &mut F,
    place: &Place,
    expr: &Expr,
    number: MsgNum,
) -> Result<bool, CommandFault>
    ensures { (h : Hand)
        → Follows run command_cause (one_tested place.now expr.now number) (by_hand h (F.state files.old))
        (by_hand h (F.state files.new)) result }
{
    let name = entry_name(alloc, &Entry::Number(number))?;
    let reading = ask_read(alloc, run, files, place, &name, LIMIT)?;
    test_read(alloc, place, expr, number, reading)
}

fn push_if(found: &mut List<MsgNum>, matches: bool, number: MsgNum) -> Result<(), AllocError>
    ensures { OnOk result (found.new ≡ found.old ++ kept_if matches number) }
{
    if matches { found.push(number) } else { Ok(()) }
}

/// Reads the messages of these numbers one after another, and gives those of which the expression holds.
pub(crate) fn test_all<F: Files>(
    alloc: Global,
    run: u128,
    files: &mut F,
    place: &Place,
    expr: &Expr,
    numbers: &[MsgNum],
) -> Result<List<MsgNum>, CommandFault>
    ensures { (h : Hand)
        → Follows run command_cause (all_tested place.now expr.now [] numbers.now) (by_hand h (F.state files.old))
        (by_hand h (F.state files.new)) result }
{
    let mut found = List::new(alloc);
    for number in numbers {
        let matches = test_one(alloc, run, files, place, expr, *number)?;
        push_if(&mut found, matches, *number)?;
    }
    Ok(found)
}
