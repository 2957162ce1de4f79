// `mhbuild`: a draft becomes a message.
ghost use Rattle.std.specs.Prelude.{◌≡◌, ℕ, IfSome};
ghost use Rattle.folder_files.specs.Story.{FilesState};
ghost use Rattle.file_plans.specs.Plan.{Hand as Kept, lifted, say as say_plan};
ghost use Rattle.file_plans.specs.Follows.{Follows, all, by_out};
ghost use Rattle.step_plans.specs.CommandFaults.{command_cause, of_sink};
ghost use Rattle.mhbuild_plans.specs.BuildAlone.{TellsIfUnfaulted};
ghost use Rattle.mhbuild_plans.specs.BuildPledge.{PromisesSteps};
ghost use Rattle.mhbuild_plans.specs.Building.{message_done, mhbuild as mhbuild_plan};

use crate::BuildJob;
use crate::message::build;
use crate::text::read_text;
use draft_files::{DraftName, replace_draft};
use file_plans::say;
use folder_files::Files;
use mh_base::{Bytes, Sink, Source};
use std::alloc::Global;
use step_plans::{CommandFault, Hand};

fn say_message<O: Sink>(out: &mut O, message: &Bytes) -> Result<(), CommandFault>
    ensures { (run : ℕ) (h : Kept) (f : FilesState)
        → Follows run command_cause (lifted of_sink (say_plan message.now)) (by_out h f (O.state out.old))
        (by_out h f (O.state out.new)) result }
{
    say(out, message.as_slice())?;
    Ok(())
}

/// Writes the message, where the draft was the input; or else puts it in the draft's place.
fn finish<F: Files, O: Sink>(
    alloc: Global,
    hand: &mut Hand,
    files: &mut F,
    out: &mut O,
    draft: &Option<DraftName>,
    message: &mut Bytes,
) -> Result<(), CommandFault>
    ensures plan { Follows hand.old.run command_cause (message_done hand.old.run draft.now message.old)
        (by_out hand.old.kept (F.state files.old) (O.state out.old))
        (by_out hand.new.kept (F.state files.new) (O.state out.new)) result }
    ensures run { hand.new.run ≡ hand.old.run }
    ensures mail { hand.new.mail ≡ hand.old.mail }
{
    match draft {
        None => say_message(out, message),
        Some(name) => replace_draft(alloc, hand, files, name, message),
    }
}

/// Reads the draft, by its name or as the input, and what it wants, in its order. The message of a draft that was the
/// input is written; another takes the draft's name, and the draft stays beside it under the name of its original.
pub fn mhbuild<F: Files, I: Source, O: Sink>(
    alloc: Global,
    hand: &mut Hand,
    files: &mut F,
    input: &mut I,
    out: &mut O,
    job: &BuildJob,
) -> Result<(), CommandFault>
    ensures plan { Follows hand.old.run command_cause (mhbuild_plan hand.old.run hand.old.mail job.now)
        (all hand.old.kept (F.state files.old) (I.state input.old) (O.state out.old))
        (all hand.new.kept (F.state files.new) (I.state input.new) (O.state out.new)) result }
    ensures alone { TellsIfUnfaulted hand.old.run hand.old.mail job.now hand.old.kept result (F.state files.old)
        (F.state files.new) (I.state input.old) (I.state input.new) (O.state out.old) (O.state out.new) }
    ensures steps { PromisesSteps hand.old.run hand.old.mail job.now
        (all hand.old.kept (F.state files.old) (I.state input.old) (O.state out.old))
        (all hand.new.kept (F.state files.new) (I.state input.new) (O.state out.new)) }
    ensures input { IfSome job.now.draft (λ _. I.state input.new ≡ I.state input.old) }
    ensures run { hand.new.run ≡ hand.old.run }
    ensures mail { hand.new.mail ≡ hand.old.mail }
{
    let text = read_text(alloc, hand.run(), files, input, &job.draft)?;
    let mut message = build(alloc, hand, files, job, &text)?;
    finish(alloc, hand, files, out, &job.draft, &mut message)
}
