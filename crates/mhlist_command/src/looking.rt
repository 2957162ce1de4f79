// `mhlist`: rows of the parts of chosen messages.
ghost use Rattle.std.specs.Prelude.{◌≡◌};
ghost use Rattle.file_plans.specs.Follows.{Follows, by_out};
ghost use Rattle.step_plans.specs.CommandFaults.{command_cause};
ghost use Rattle.told_folders.specs.ToldAlone.{TellsIfUnfaulted};
ghost use Rattle.mhlist_plans.specs.ListOutcome.{mhlist_work};
ghost use Rattle.mhlist_plans.specs.ListPledge.{PromisesSteps};
ghost use Rattle.mhlist_plans.specs.Listing.{chosen_by, mhlist as mhlist_plan};
ghost use Rattle.mhlist_plans.specs.Values.{AreValue};
ghost use Rattle.mh_profile.specs.Reading.{entries_seen};

use crate::ListJob;
use crate::rows::{list_all, say_header};
use command_stages::{
    choose, folder_place, list_folder, make_current, numbers, read_sequences_text,
};
use folder_files::Files;
use mh_base::{Bytes, FolderName, MsgNum, NameList, Sink, TextList};
use std::alloc::Global;
use step_plans::{CommandFault, Hand};
use told_folders::{listed, sequences_listed};

/// The messages that words choose of a folder, by its names and the text of its sequences.
pub fn chosen_messages(
    alloc: Global,
    hand: &Hand,
    folder: &FolderName,
    specs: &TextList,
    negation: &[u8],
    names: &NameList,
    text: &Bytes,
) -> Result<Vec<MsgNum>, CommandFault>
    ensures { AreValue
        (chosen_by folder.now specs.now negation.now names.now text.now (entries_seen hand.now.kept.context)) result }
{
    let listing = listed(alloc, names)?;
    let sequences = sequences_listed(alloc, hand, folder, text.as_slice(), &listing)?;
    let set = choose(alloc, specs, &listing, &sequences, negation)?;
    Ok(numbers(alloc, &set)?)
}

/// Writes a header line, and then the rows of each chosen message: of its parts that are wanted, or of all. A message
/// that lacks one of those that are wanted ends the call, by the first of them, before a row of it is written. Then the
/// folder becomes the current one.
pub fn mhlist<F: Files, O: Sink>(
    alloc: Global,
    hand: &mut Hand,
    files: &mut F,
    out: &mut O,
    job: &ListJob,
) -> Result<(), CommandFault>
    ensures plan { Follows hand.old.run command_cause (mhlist_plan hand.old.run hand.old.mail job.now)
        (by_out hand.old.kept (F.state files.old) (O.state out.old))
        (by_out hand.new.kept (F.state files.new) (O.state out.new)) result }
    ensures alone { TellsIfUnfaulted hand.old.run hand.old.mail job.now.folder hand.old.kept
        (λ entries held m. mhlist_work hand.old.mail entries job.now m) result (F.state files.old) (F.state files.new)
        (O.state out.old) (O.state out.new) }
    ensures steps { PromisesSteps hand.old.run hand.old.mail job.now
        (by_out hand.old.kept (F.state files.old) (O.state out.old))
        (by_out hand.new.kept (F.state files.new) (O.state out.new)) }
    ensures run { hand.new.run ≡ hand.old.run }
    ensures mail { hand.new.mail ≡ hand.old.mail }
{
    let place = folder_place(alloc, hand, &job.folder)?;
    let names = list_folder(alloc, hand.run(), files, &place, &job.folder)?;
    let text = read_sequences_text(alloc, hand.run(), files, &place)?;
    let found = chosen_messages(
        alloc,
        hand,
        &job.folder,
        &job.specs,
        job.negation.as_slice(),
        &names,
        &text,
    )?;
    say_header(alloc, out)?;
    list_all(
        alloc,
        hand.run(),
        files,
        out,
        job.parts.as_slice(),
        &place,
        found.as_slice(),
    )?;
    make_current(alloc, hand, files, &job.folder)
}
