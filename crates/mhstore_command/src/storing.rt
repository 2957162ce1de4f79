// `mhstore`: parts of chosen messages become files of the current directory.
ghost use Rattle.std.specs.Prelude.{◌≡◌};
ghost use Rattle.file_plans.specs.Follows.{Follows, by_out};
ghost use Rattle.step_plans.specs.CommandFaults.{command_cause};
ghost use Rattle.mhstore_plans.specs.StoreAlone.{StoresIfUnfaulted};
ghost use Rattle.mhstore_plans.specs.StorePledge.{PromisesSteps};
ghost use Rattle.mhstore_plans.specs.Storing.{all_stored, mhstore as mhstore_plan, one_stored, stored_by};

use crate::StoreJob;
use crate::filing::store_message;
use command_stages::{LIMIT, folder_place, list_folder, make_current, read_sequences_text};
use file_plans::{Reading, ask_read};
use folder_files::{Files, Place, Refusal};
use mh_base::{Entry, MsgNum, Sink, entry_name};
use mhlist_command::{chosen_messages, message_gone};
use std::alloc::Global;
use step_plans::{CommandFault, Hand};

/// The parts of a message are stored, by what reading it gave.
fn store_read<F: Files, O: Sink>(
    alloc: Global,
    hand: &mut Hand,
    files: &mut F,
    out: &mut O,
    job: &StoreJob,
    place: &Place,
    number: MsgNum,
    reading: Reading,
) -> Result<(), CommandFault>
    ensures plan { Follows hand.old.run command_cause (stored_by hand.old.run job.now place.now number reading)
        (by_out hand.old.kept (F.state files.old) (O.state out.old))
        (by_out hand.new.kept (F.state files.new) (O.state out.new)) result }
    ensures same { (hand.new.run ≡ hand.old.run) × (hand.new.mail ≡ hand.old.mail) }
{
    match reading {
        Reading::Content(bytes) => {
            store_message(alloc, hand, files, out, job, number, bytes.as_slice())
        }
        Reading::Long(length) => Err(CommandFault::Refused(Refusal::TooLarge {
            length,
            limit: LIMIT,
        })),
        Reading::Gone => Err(message_gone(alloc, place, number)?),
    }
}

fn store_one<F: Files, O: Sink>(
    alloc: Global,
    hand: &mut Hand,
    files: &mut F,
    out: &mut O,
    job: &StoreJob,
    place: &Place,
    number: MsgNum,
) -> Result<(), CommandFault>
    ensures plan { Follows hand.old.run command_cause (one_stored hand.old.run job.now place.now number)
        (by_out hand.old.kept (F.state files.old) (O.state out.old))
        (by_out hand.new.kept (F.state files.new) (O.state out.new)) result }
    ensures same { (hand.new.run ≡ hand.old.run) × (hand.new.mail ≡ hand.old.mail) }
{
    let name = entry_name(alloc, &Entry::Number(number))?;
    let reading = ask_read(alloc, hand.run(), files, place, &name, LIMIT)?;
    store_read(alloc, hand, files, out, job, place, number, reading)
}

/// The parts of these messages are stored.
fn store_all<F: Files, O: Sink>(
    alloc: Global,
    hand: &mut Hand,
    files: &mut F,
    out: &mut O,
    job: &StoreJob,
    place: &Place,
    numbers: &[MsgNum],
) -> Result<(), CommandFault>
    ensures plan { Follows hand.old.run command_cause (all_stored hand.old.run job.now place.now numbers.now)
        (by_out hand.old.kept (F.state files.old) (O.state out.old))
        (by_out hand.new.kept (F.state files.new) (O.state out.new)) result }
    ensures same { (hand.new.run ≡ hand.old.run) × (hand.new.mail ≡ hand.old.mail) }
{
    for number in numbers {
        store_one(alloc, hand, files, out, job, place, *number)?;
    }
    Ok(())
}

/// Stores the wanted parts of each chosen message, or its leaves where none are named, in files of the current
/// directory, and writes a line for each. A message that lacks a wanted part ends the call, by the first of them,
/// before a part of it is stored. A file that stands there is replaced where the job says so; else it stays, and the
/// call ends. Then the folder becomes the current one.
pub fn mhstore<F: Files, O: Sink>(
    alloc: Global,
    hand: &mut Hand,
    files: &mut F,
    out: &mut O,
    job: &StoreJob,
) -> Result<(), CommandFault>
    ensures plan { Follows hand.old.run command_cause (mhstore_plan hand.old.run hand.old.mail job.now)
        (by_out hand.old.kept (F.state files.old) (O.state out.old))
        (by_out hand.new.kept (F.state files.new) (O.state out.new)) result }
    ensures alone { StoresIfUnfaulted hand.old.run hand.old.mail job.now hand.old.kept result (F.state files.old)
        (F.state files.new) (O.state out.old) (O.state out.new) }
    ensures steps { PromisesSteps hand.old.run hand.old.mail job.now
        (by_out hand.old.kept (F.state files.old) (O.state out.old))
        (by_out hand.new.kept (F.state files.new) (O.state out.new)) }
    ensures run { hand.new.run ≡ hand.old.run }
    ensures mail { hand.new.mail ≡ hand.old.mail }
{
    let place = folder_place(alloc, hand, &job.folder)?;
    let names = list_folder(alloc, hand.run(), files, &place, &job.folder)?;
    let text = read_sequences_text(alloc, hand.run(), files, &place)?;
    let found = chosen_messages(
        alloc,
        hand,
        &job.folder,
        &job.specs,
        job.negation.as_slice(),
        &names,
        &text,
    )?;
    store_all(alloc, hand, files, out, job, &place, found.as_slice())?;
    make_current(alloc, hand, files, &job.folder)
}
