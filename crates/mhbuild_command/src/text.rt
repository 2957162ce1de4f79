// The text of the draft, by its name or from the input.
ghost use Rattle.std.specs.Prelude.{◌≡◌, ℕ, IfSome};
ghost use Rattle.mh_base.specs.Streams.{SinkState};
ghost use Rattle.file_plans.specs.Plan.{Hand};
ghost use Rattle.file_plans.specs.Follows.{Follows, all};
ghost use Rattle.step_plans.specs.CommandFaults.{command_cause};
ghost use Rattle.draft_files.specs.Drafts.{draft_text};

use draft_files::{DraftName, hear_all, read_draft};
use folder_files::Files;
use mh_base::{Bytes, Source};
use std::alloc::Global;
use step_plans::CommandFault;

/// The text of the draft of this name, or the input where there is no name.
pub(crate) fn read_text<F: Files, I: Source>(
    alloc: Global,
    run: u128,
    files: &mut F,
    input: &mut I,
    draft: &Option<DraftName>,
) -> Result<Bytes, CommandFault>
    ensures plan { (h : Hand) (o : SinkState)
        → Follows run command_cause (draft_text draft.now) (all h (F.state files.old) (I.state input.old) o)
        (all h (F.state files.new) (I.state input.new) o) result }
    ensures input { IfSome draft.now (λ _. I.state input.new ≡ I.state input.old) }
{
    match draft {
        None => hear_all(alloc, input),
        Some(name) => read_draft(alloc, run, files, name),
    }
}
