// The text of a draft.
ghost use Rattle.std.specs.Prelude.{◌≡◌, ℕ, IfOk};
ghost use Rattle.file_plans.specs.Plan.{Hand};
ghost use Rattle.file_plans.specs.Follows.{Follows, State, by_hand};
ghost use Rattle.step_plans.specs.CommandFaults.{command_cause};
ghost use Rattle.draft_files.specs.Drafts.{draft_by, draft_read, in_work as in_work_of};

use crate::DraftName;
use command_stages::LIMIT;
use file_plans::{Reading, ask_read};
use folder_files::{FilePath, Files, Place, Refusal};
use mh_base::{Bytes, Name};
use std::alloc::{AllocError, Global};
use step_plans::CommandFault;

/// A file of the current directory.
fn in_work(alloc: Global, name: &Name) -> Result<FilePath, AllocError>
    ensures { IfOk result (λ path. path ≡ in_work_of name.now) }
{
    Ok(FilePath {
        home: false,
        text: Bytes::from_slice(alloc, name.bytes())?,
    })
}

fn draft_from(alloc: Global, name: &Name, reading: Reading) -> Result<Bytes, CommandFault>
    ensures { (run : ℕ) (x : State) → Follows run command_cause (draft_by name.now reading) x x result }
{
    match reading {
        Reading::Content(bytes) => Ok(bytes),
        Reading::Long(length) => Err(CommandFault::Refused(Refusal::TooLarge {
            length,
            limit: LIMIT,
        })),
        Reading::Gone => Err(CommandFault::Refused(Refusal::NoFile(in_work(alloc, name)?))),
    }
}

/// The text of a draft in the current directory. One that isn't there, or is too long, is refused.
pub fn read_draft<F: Files>(
    alloc: Global,
    run: u128,
    files: &mut F,
    draft: &DraftName,
) -> Result<Bytes, CommandFault>
    ensures { (h : Hand)
        → Follows run command_cause (draft_read draft.now) (by_hand h (F.state files.old))
        (by_hand h (F.state files.new)) result }
{
    let reading = ask_read(alloc, run, files, &Place::Work, draft.name(), LIMIT)?;
    draft_from(alloc, draft.name(), reading)
}
