// Files that a draft names.
ghost use Rattle.file_plans.specs.Plan.{Hand};
ghost use Rattle.file_plans.specs.Follows.{Follows, State, by_hand};
ghost use Rattle.step_plans.specs.CommandFaults.{command_cause};
ghost use Rattle.draft_contents.specs.Files.{file_by, file_read};
ghost use Rattle.draft_contents.specs.Wants.{file_given};
ghost use Rattle.std.specs.Prelude.{ℕ};

use command_stages::LIMIT;
use file_plans::{Reading, ask_read_file};
use folder_files::{FilePath, Files, Refusal};
use mh_base::{Bytes, Duplicate};
use mhbuild_compose::Given;
use std::alloc::Global;
use step_plans::CommandFault;

fn file_from(alloc: Global, path: &FilePath, reading: Reading) -> Result<Bytes, CommandFault>
    ensures { (run : ℕ) (x : State) → Follows run command_cause (file_by path.now reading) x x result }
{
    match reading {
        Reading::Content(bytes) => Ok(bytes),
        Reading::Long(length) => Err(CommandFault::Refused(Refusal::TooLarge {
            length,
            limit: LIMIT,
        })),
        Reading::Gone => Err(CommandFault::Refused(Refusal::NoFile(path.duplicate(alloc)?))),
    }
}

/// The bytes of a file. One that isn't there, or is too long, is refused.
fn read_file<F: Files>(
    alloc: Global,
    run: u128,
    files: &mut F,
    path: &FilePath,
) -> Result<Bytes, CommandFault>
    ensures { (h : Hand)
        → Follows run command_cause (file_read path.now) (by_hand h (F.state files.old))
        (by_hand h (F.state files.new)) result }
{
    let reading = ask_read_file(alloc, run, files, path, LIMIT)?;
    file_from(alloc, path, reading)
}

pub(crate) fn give_file<F: Files>(
    alloc: Global,
    run: u128,
    files: &mut F,
    path: &FilePath,
) -> Result<Given, CommandFault>
    ensures { (h : Hand)
        → Follows run command_cause (file_given path.now) (by_hand h (F.state files.old))
        (by_hand h (F.state files.new)) result }
{
    let bytes = read_file(alloc, run, files, path)?;
    Ok(Given::File(bytes))
}
