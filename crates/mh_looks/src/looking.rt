// `scan`: a line for each chosen message of a folder.
ghost use Rattle.std.specs.Prelude.{◌≡◌, ◌++◌, ℕ, Result, Ok, IfOk, reverse};
ghost use Rattle.mh_base.specs.Entries.{entry_text};
ghost use Rattle.folder_files.specs.Story.{FilesState};
ghost use Rattle.file_plans.specs.Plan.{Hand as Kept};
ghost use Rattle.file_plans.specs.Follows.{Follows, by_out};
ghost use Rattle.step_plans.specs.CommandFaults.{command_cause};
ghost use Rattle.mh_looks.specs.Scan.{
  shown_by,
  one_shown,
  all_shown,
  ordered as ordered_of,
  chosen_with,
  scan as scan_plan,
};
ghost use Rattle.msg_ranges.specs.Selection.{marks_of};
ghost use Rattle.mh_looks.specs.Asked.{asked};
ghost use Rattle.mh_looks.specs.Lines.{lined};
ghost use Rattle.mh_looks.specs.Values.{IsListed};

use crate::ScanJob;
use crate::lines::{Lines, line};
use crate::sequences::sequences_in;
use crate::unseen::Unseen;
use command_stages::{
    LIMIT, choose, folder_place, list_folder, listed_numbers, make_current, numbers,
    read_sequences_text,
};
use file_plans::{Reading, ask_read, say};
use folder_files::{Files, Place, Refusal};
use mh_base::{Duplicate, Entry, MsgNum, NameList, Sink, entry_name};
use mh_sequences::Sequences;
use std::alloc::{AllocError, Global};
use step_plans::{CommandFault, Hand};

fn meddled(alloc: Global, place: &Place, number: MsgNum) -> Result<CommandFault, AllocError>
    ensures { IfOk result (λ fault. fault ≡ CommandFault.Meddled place.now (entry_text (Entry.Number number))) }
{
    let name = entry_name(alloc, &Entry::Number(number))?;
    Ok(CommandFault::Meddled(place.duplicate(alloc)?, name))
}

/// Writes the line of a message, by what reading it gave.
fn show<O: Sink>(
    alloc: Global,
    out: &mut O,
    lines: Lines,
    place: &Place,
    number: MsgNum,
    reading: Reading,
) -> Result<(), CommandFault>
    ensures { (run : ℕ) (h : Kept) (f : FilesState)
        → Follows run command_cause (shown_by (lined lines.entry) place.now number reading)
        (by_out h f (O.state out.old)) (by_out h f (O.state out.new)) result }
{
    match reading {
        Reading::Content(bytes) => {
            let line = line(alloc, lines, number, bytes.as_slice())?;
            say(out, line.as_slice())?;
            Ok(())
        }
        Reading::Long(length) => Err(CommandFault::Refused(Refusal::TooLarge {
            length,
            limit: LIMIT,
        })),
        Reading::Gone => Err(meddled(alloc, place, number)?),
    }
}

fn show_one<F: Files, O: Sink>(
    alloc: Global,
    run: u128,
    files: &mut F,
    out: &mut O,
    lines: Lines,
    place: &Place,
    number: MsgNum,
) -> Result<(), CommandFault>
    ensures { (h : Kept)
        → Follows run command_cause (one_shown (lined lines.entry) place.now number)
        (by_out h (F.state files.old) (O.state out.old)) (by_out h (F.state files.new) (O.state out.new)) result }
{
    let name = entry_name(alloc, &Entry::Number(number))?;
    let reading = ask_read(alloc, run, files, place, &name, LIMIT)?;
    show(alloc, out, lines, place, number, reading)
}

fn show_all<F: Files, O: Sink>(
    alloc: Global,
    run: u128,
    files: &mut F,
    out: &mut O,
    lines: Lines,
    place: &Place,
    numbers: &[MsgNum],
) -> Result<(), CommandFault>
    ensures { (h : Kept)
        → Follows run command_cause (all_shown (lined lines.entry) place.now numbers.now)
        (by_out h (F.state files.old) (O.state out.old)) (by_out h (F.state files.new) (O.state out.new)) result }
{
    for number in numbers {
        show_one(alloc, run, files, out, lines, place, *number)?;
    }
    Ok(())
}

/// The messages that the job's words choose, in the order of their numbers.
fn chosen(
    alloc: Global,
    job: &ScanJob,
    names: &NameList,
    sequences: &Sequences,
) -> Result<Vec<MsgNum>, CommandFault>
    ensures { IsListed (chosen_with (asked job.now) names.now (marks_of sequences.now)) result }
{
    let listing = listed_numbers(alloc, names.as_slice())?;
    let set = choose(
        alloc,
        &job.specs,
        &listing,
        sequences,
        job.negation.as_slice(),
    )?;
    Ok(numbers(alloc, &set)?)
}

/// Descending where asked.
fn ordered(numbers: &mut Vec<MsgNum>, reverse: bool)
    ensures { numbers.new.items ≡ ordered_of reverse numbers.old.items }
{
    if reverse {
        numbers.reverse();
    }
}

/// Writes a line for each chosen message, and makes the folder the current one.
pub fn scan<F: Files, O: Sink>(
    alloc: Global,
    hand: &mut Hand,
    files: &mut F,
    out: &mut O,
    job: &ScanJob,
) -> Result<(), CommandFault>
    ensures plan { Follows hand.old.run command_cause (scan_plan hand.old.run hand.old.mail (asked job.now))
        (by_out hand.old.kept (F.state files.old) (O.state out.old))
        (by_out hand.new.kept (F.state files.new) (O.state out.new)) result }
    ensures run { hand.new.run ≡ hand.old.run }
    ensures mail { hand.new.mail ≡ hand.old.mail }
{
    let place = folder_place(alloc, hand, &job.folder)?;
    let names = list_folder(alloc, hand.run(), files, &place, &job.folder)?;
    let text = read_sequences_text(alloc, hand.run(), files, &place)?;
    let sequences = sequences_in(alloc, text.as_slice(), hand, &job.folder)?;
    let mut found = chosen(alloc, job, &names, &sequences)?;
    ordered(&mut found, job.reverse);
    let unseen = Unseen::of(alloc, &sequences, job.unseen.as_slice())?;
    let lines = Lines {
        look: &job.look,
        unseen: &unseen,
    };
    show_all(
        alloc,
        hand.run(),
        files,
        out,
        lines,
        &place,
        found.as_slice(),
    )?;
    make_current(alloc, hand, files, &job.folder)
}
