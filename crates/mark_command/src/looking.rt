// `mark` that only lists.
ghost use Rattle.std.specs.Prelude.{◌≡◌};
ghost use Rattle.file_plans.specs.Follows.{Follows, by_out};
ghost use Rattle.step_plans.specs.CommandFaults.{command_cause};
ghost use Rattle.told_folders.specs.Plans.{folder_looked};
ghost use Rattle.told_folders.specs.Tasks.{checked, sequences_seen};
ghost use Rattle.mark_command.specs.Mark.{look_task};
ghost use Rattle.mark_command.specs.Values.{AreValue};
ghost use Rattle.mh_profile.specs.Reading.{entries_seen};

use crate::MarkJob;
use crate::saying::say_sequences;
use command_stages::{choose, folder_place, list_folder, make_current, read_sequences_text};
use folder_files::Files;
use mh_base::{Bytes, NameList, Sink};
use mh_sequences::{NumSet, Sequences};
use std::alloc::Global;
use step_plans::{CommandFault, Hand};
use told_folders::{listed, sequences_listed};

/// The sequences, where none of the words is refused.
fn check(
    alloc: Global,
    job: &MarkJob,
    listing: &NumSet,
    sequences: Sequences,
) -> Result<Sequences, CommandFault>
    ensures { AreValue (checked (look_task job.now) listing.now.runs sequences) result }
{
    if !job.specs.is_empty() {
        let _ = choose(
            alloc,
            &job.specs,
            listing,
            &sequences,
            job.negation.as_slice(),
        )?;
    }
    Ok(sequences)
}

fn seen(
    alloc: Global,
    hand: &Hand,
    job: &MarkJob,
    names: &NameList,
    text: &Bytes,
) -> Result<Sequences, CommandFault>
    ensures { AreValue
        (sequences_seen (look_task job.now) names.now text.now (entries_seen hand.now.kept.context)) result }
{
    let listing = listed(alloc, names)?;
    let sequences = sequences_listed(alloc, hand, &job.folder, text.as_slice(), &listing)?;
    check(alloc, job, &listing, sequences)
}

/// Lists the sequences, and makes the folder the current one.
pub(crate) fn look<F: Files, O: Sink>(
    alloc: Global,
    hand: &mut Hand,
    files: &mut F,
    out: &mut O,
    job: &MarkJob,
) -> Result<(), CommandFault>
    ensures plan { Follows hand.old.run command_cause (folder_looked hand.old.run hand.old.mail (look_task job.now))
        (by_out hand.old.kept (F.state files.old) (O.state out.old))
        (by_out hand.new.kept (F.state files.new) (O.state out.new)) result }
    ensures run { hand.new.run ≡ hand.old.run }
    ensures mail { hand.new.mail ≡ hand.old.mail }
{
    let place = folder_place(alloc, hand, &job.folder)?;
    let names = list_folder(alloc, hand.run(), files, &place, &job.folder)?;
    let text = read_sequences_text(alloc, hand.run(), files, &place)?;
    let sequences = seen(alloc, hand, job, &names, &text)?;
    say_sequences(alloc, out, job, &sequences)?;
    make_current(alloc, hand, files, &job.folder)
}
