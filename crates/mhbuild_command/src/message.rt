// The message of a draft's text.
ghost use Rattle.std.specs.Prelude.{◌≡◌, IfOk};
ghost use Rattle.file_plans.specs.Follows.{Follows, by_hand};
ghost use Rattle.step_plans.specs.CommandFaults.{command_cause};
ghost use Rattle.draft_contents.specs.Values.{IsValueOf};
ghost use Rattle.mhbuild_plans.specs.Building.{text_built};
ghost use Rattle.mhbuild_plans.specs.Composed.{composed};
ghost use Rattle.mhbuild_plans.specs.Parsed.{parsed};

use crate::BuildJob;
use draft_contents::give_all;
use draft_files::within_limit;
use folder_files::{Files, Refusal};
use mh_base::Bytes;
use mh_drafts::{Draft, DraftFault};
use mhbuild_compose::{GivenList, compose};
use std::alloc::{AllocError, Global};
use step_plans::{CommandFault, Hand};

/// The draft that a text is. Its first wrong line is refused.
fn parse(alloc: Global, text: &Bytes) -> Result<Draft, CommandFault>
    ensures { IsValueOf (parsed text.now) result }
{
    match Draft::read(alloc, text.as_slice()) {
        Ok(draft) => Ok(draft),
        Err(DraftFault::Bad(line)) => Err(CommandFault::Refused(Refusal::BadDraft { line })),
        Err(DraftFault::Memory) => Err(CommandFault::Memory),
    }
}

/// The message of a draft with what is given.
fn compose_one(
    alloc: Global,
    run: u128,
    draft: &Draft,
    givens: &GivenList,
) -> Result<Bytes, AllocError>
    ensures { IfOk result (λ message. message ≡ composed run draft.now givens.now) }
{
    compose(alloc, draft, givens, run)
}

/// The message of a text. One that is too long is refused.
pub(crate) fn build<F: Files>(
    alloc: Global,
    hand: &Hand,
    files: &mut F,
    job: &BuildJob,
    text: &Bytes,
) -> Result<Bytes, CommandFault>
    ensures { Follows hand.now.run command_cause (text_built hand.now.run hand.now.mail job.now text.now)
        (by_hand hand.now.kept (F.state files.old)) (by_hand hand.now.kept (F.state files.new)) result }
{
    let draft = parse(alloc, text)?;
    let givens = give_all(
        alloc,
        hand,
        files,
        &job.forwarding,
        draft.wants().as_slice(),
    )?;
    let message = compose_one(alloc, hand.run(), &draft, &givens)?;
    within_limit(message)
}
