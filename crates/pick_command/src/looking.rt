// `pick` that marks nothing.
ghost use Rattle.std.specs.Prelude.{◌≡◌};
ghost use Rattle.file_plans.specs.Follows.{Follows, by_out};
ghost use Rattle.step_plans.specs.CommandFaults.{command_cause};
ghost use Rattle.pick_plans.specs.Pick.{chosen_seen, pick_looks};
ghost use Rattle.pick_plans.specs.Values.{AreValue};
ghost use Rattle.mh_profile.specs.Reading.{entries_seen};

use crate::PickJob;
use crate::picking::{find, tell};
use command_stages::{choose, folder_place, list_folder, numbers, read_sequences_text};
use folder_files::Files;
use mh_base::{Bytes, MsgNum, NameList, Sink};
use std::alloc::Global;
use step_plans::{CommandFault, Hand};
use told_folders::{listed, sequences_listed};

/// The messages that the words choose.
fn chosen(
    alloc: Global,
    hand: &Hand,
    job: &PickJob,
    names: &NameList,
    text: &Bytes,
) -> Result<Vec<MsgNum>, CommandFault>
    ensures { AreValue (chosen_seen job.now names.now text.now (entries_seen hand.now.kept.context)) result }
{
    let listing = listed(alloc, names)?;
    let sequences = sequences_listed(alloc, hand, &job.folder, text.as_slice(), &listing)?;
    let set = choose(
        alloc,
        &job.specs,
        &listing,
        &sequences,
        job.negation.as_slice(),
    )?;
    Ok(numbers(alloc, &set)?)
}

/// Finds the messages that match, tells their numbers, and makes the folder the current one.
pub(crate) fn look<F: Files, O: Sink>(
    alloc: Global,
    hand: &mut Hand,
    files: &mut F,
    out: &mut O,
    job: &PickJob,
) -> Result<(), CommandFault>
    ensures plan { Follows hand.old.run command_cause (pick_looks hand.old.run hand.old.mail job.now)
        (by_out hand.old.kept (F.state files.old) (O.state out.old))
        (by_out hand.new.kept (F.state files.new) (O.state out.new)) result }
    ensures run { hand.new.run ≡ hand.old.run }
    ensures mail { hand.new.mail ≡ hand.old.mail }
{
    let place = folder_place(alloc, hand, &job.folder)?;
    let names = list_folder(alloc, hand.run(), files, &place, &job.folder)?;
    let text = read_sequences_text(alloc, hand.run(), files, &place)?;
    let numbers = chosen(alloc, hand, job, &names, &text)?;
    let found = find(
        alloc,
        hand.run(),
        files,
        out,
        &place,
        job,
        numbers.as_slice(),
    )?;
    tell(alloc, hand, files, out, job, found.as_slice())
}
