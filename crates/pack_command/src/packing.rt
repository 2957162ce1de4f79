// `folder -pack`: messages are numbered anew, and the folder is told of.
ghost use Rattle.std.specs.Prelude.{◌≡◌, IfOk};
ghost use Rattle.file_plans.specs.Follows.{Follows, by_hand, by_out};
ghost use Rattle.file_plans.specs.Plan.{lifted};
ghost use Rattle.step_plans.specs.CommandFaults.{command_cause};
ghost use Rattle.step_plans.specs.Hands.{mail_place};
ghost use Rattle.command_stages.specs.Endings.{of_plan};
ghost use Rattle.message_places.specs.Order.{moves_of};
ghost use Rattle.sortm_plans.specs.Moving.{sequences_after};
ghost use Rattle.pack_plans.specs.Pack.{line_of, line_told, opened_packed, pack as pack_plan, renumbered};
ghost use Rattle.pack_plans.specs.PackAlone.{PacksIfUnfaulted};
ghost use Rattle.pack_plans.specs.PackPledge.{PromisesSteps};
ghost use Rattle.pack_plans.specs.Places.{listing_after};

use crate::PackJob;
use crate::moving::renumber;
use crate::standing::{Standing, by_place};
use crate::telling::tell_line;
use command_stages::{fault_in, folder_place};
use folder_files::Files;
use mh_base::{Duplicate, List, MsgNum, Sink};
use mh_sequences::Sequences;
use opened_folders::{Opened, end, open};
use sortm_command::moves;
use std::alloc::Global;
use step_plans::{CommandFault, Hand};

/// The messages come to stand at their places; where those ended that moved.
fn pack_messages<F: Files>(
    alloc: Global,
    hand: &mut Hand,
    files: &mut F,
    job: &PackJob,
    opened: &mut Opened,
    standing: &Standing,
) -> Result<List<MsgNum>, CommandFault>
    ensures plan { Follows hand.old.run command_cause
        (lifted (of_plan job.now.folder)
        (renumbered hand.old.run (mail_place hand.old) opened.old
        (moves_of standing.now.numbers.items standing.now.places)))
        (by_hand hand.old.kept (F.state files.old)) (by_hand hand.new.kept (F.state files.new)) result }
    ensures left { IfOk result
        (λ ends.
        opened.new.sequences
        ≡ sequences_after (moves_of standing.now.numbers.items standing.now.places) ends opened.old.sequences) }
    ensures run { hand.new.run ≡ hand.old.run }
    ensures mail { hand.new.mail ≡ hand.old.mail }
{
    let moves = moves(
        alloc,
        standing.numbers.as_slice(),
        standing.places.as_slice(),
    )?;
    let folder = job.folder.duplicate(alloc)?;
    match renumber(alloc, hand, files, opened, moves.as_slice()) {
        Ok(ends) => Ok(ends),
        Err(fault) => Err(fault_in(folder, fault)),
    }
}

/// The folder is told of, where the messages that moved ended at these numbers.
fn tell_packed<F: Files, O: Sink>(
    alloc: Global,
    hand: &mut Hand,
    files: &mut F,
    out: &mut O,
    job: &PackJob,
    standing: &Standing,
    ends: &[MsgNum],
    sequences: &Sequences,
) -> Result<(), CommandFault>
    ensures plan { Follows hand.old.run command_cause
        (line_told hand.old.run hand.old.mail job.now
        (line_of job.now (listing_after standing.now.numbers.items standing.now.places ends.now) sequences.now))
        (by_out hand.old.kept (F.state files.old) (O.state out.old))
        (by_out hand.new.kept (F.state files.new) (O.state out.new)) result }
    ensures run { hand.new.run ≡ hand.old.run }
    ensures mail { hand.new.mail ≡ hand.old.mail }
{
    let listing = standing.after(alloc, ends)?;
    tell_line(alloc, hand, files, out, job, &listing, sequences)
}

/// The work on a folder that was begun.
fn pack_opened<F: Files, O: Sink>(
    alloc: Global,
    hand: &mut Hand,
    files: &mut F,
    out: &mut O,
    job: &PackJob,
    mut opened: Opened,
) -> Result<(), CommandFault>
    ensures plan { Follows hand.old.run command_cause (opened_packed hand.old.run hand.old.mail job.now opened)
        (by_out hand.old.kept (F.state files.old) (O.state out.old))
        (by_out hand.new.kept (F.state files.new) (O.state out.new)) result }
    ensures run { hand.new.run ≡ hand.old.run }
    ensures mail { hand.new.mail ≡ hand.old.mail }
{
    let standing = by_place(alloc, opened.listing())?;
    let ends = pack_messages(alloc, hand, files, job, &mut opened, &standing)?;
    tell_packed(
        alloc,
        hand,
        files,
        out,
        job,
        &standing,
        ends.as_slice(),
        opened.sequences(),
    )
}

/// Numbers the messages of a folder anew, from 1 on, in the order that they have, in a folder that is begun. Marks and
/// the current message go with their messages. Where all stand so nothing is changed. Then the folder is told of as
/// `folder` does it, and becomes the current one.
pub fn pack<F: Files, O: Sink>(
    alloc: Global,
    hand: &mut Hand,
    files: &mut F,
    out: &mut O,
    job: &PackJob,
) -> Result<(), CommandFault>
    ensures plan { Follows hand.old.run command_cause (pack_plan hand.old.run hand.old.mail job.now)
        (by_out hand.old.kept (F.state files.old) (O.state out.old))
        (by_out hand.new.kept (F.state files.new) (O.state out.new)) result }
    ensures alone { PacksIfUnfaulted hand.old.run hand.old.mail job.now hand.old.kept result (F.state files.old)
        (F.state files.new) (O.state out.old) (O.state out.new) }
    ensures steps { PromisesSteps hand.old.run hand.old.mail job.now
        (by_out hand.old.kept (F.state files.old) (O.state out.old))
        (by_out hand.new.kept (F.state files.new) (O.state out.new)) }
    ensures run { hand.new.run ≡ hand.old.run }
    ensures mail { hand.new.mail ≡ hand.old.mail }
{
    let place = folder_place(alloc, hand, &job.folder)?;
    let opened = open(alloc, hand, files, &job.folder)?;
    let done = pack_opened(alloc, hand, files, out, job, opened);
    end(alloc, hand.run(), files, &place, done)
}
