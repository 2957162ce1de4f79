// Messages of a folder are read.
ghost use Rattle.std.specs.Prelude.{◌≡◌, ℕ, [], IfOk};
ghost use Rattle.mh_base.specs.Entries.{entry_text};
ghost use Rattle.file_plans.specs.Plan.{Hand as Kept};
ghost use Rattle.file_plans.specs.Follows.{Follows, State, by_hand};
ghost use Rattle.step_plans.specs.CommandFaults.{command_cause};
ghost use Rattle.draft_contents.specs.Messages.{message_by, message_read, messages_given, messages_read};

use crate::Forwarding;
use crate::folder::chosen;
use command_stages::{LIMIT, folder_place, list_folder, read_sequences_text};
use file_plans::{Reading, ask_read};
use folder_files::{Files, Place, Refusal};
use mh_base::{Bytes, BytesList, Duplicate, Entry, FolderName, List, MsgNum, TextList, entry_name};
use std::alloc::{AllocError, Global};
use step_plans::{CommandFault, Hand};

/// The refusal of a message that is not there any more.
fn meddled(alloc: Global, place: &Place, number: MsgNum) -> Result<CommandFault, AllocError>
    ensures { IfOk result (λ fault. fault ≡ CommandFault.Meddled place.now (entry_text (Entry.Number number))) }
{
    let name = entry_name(alloc, &Entry::Number(number))?;
    Ok(CommandFault::Meddled(place.duplicate(alloc)?, name))
}

fn message_from(
    alloc: Global,
    place: &Place,
    number: MsgNum,
    reading: Reading,
) -> Result<Bytes, CommandFault>
    ensures { (run : ℕ) (x : State) → Follows run command_cause (message_by place.now number reading) x x result }
{
    match reading {
        Reading::Content(bytes) => Ok(bytes),
        Reading::Long(length) => Err(CommandFault::Refused(Refusal::TooLarge {
            length,
            limit: LIMIT,
        })),
        Reading::Gone => Err(meddled(alloc, place, number)?),
    }
}

fn read_message<F: Files>(
    alloc: Global,
    run: u128,
    files: &mut F,
    place: &Place,
    number: MsgNum,
) -> Result<Bytes, CommandFault>
    ensures { (h : Kept)
        → Follows run command_cause (message_read place.now number) (by_hand h (F.state files.old))
        (by_hand h (F.state files.new)) result }
{
    let name = entry_name(alloc, &Entry::Number(number))?;
    let reading = ask_read(alloc, run, files, place, &name, LIMIT)?;
    message_from(alloc, place, number, reading)
}

/// These messages, one after another.
fn read_messages<F: Files>(
    alloc: Global,
    run: u128,
    files: &mut F,
    place: &Place,
    numbers: &[MsgNum],
) -> Result<BytesList, CommandFault>
    ensures { (h : Kept)
        → Follows run command_cause (messages_read place.now [] numbers.now) (by_hand h (F.state files.old))
        (by_hand h (F.state files.new)) result }
{
    let mut messages = List::new(alloc);
    for number in numbers {
        let message = read_message(alloc, run, files, place, *number)?;
        messages.push(message)?;
    }
    Ok(messages)
}

/// The messages of this folder that these words choose.
pub(crate) fn give_messages<F: Files>(
    alloc: Global,
    hand: &Hand,
    files: &mut F,
    forwarding: &Forwarding,
    folder: &FolderName,
    specs: &TextList,
) -> Result<BytesList, CommandFault>
    ensures { Follows hand.now.run command_cause (messages_given hand.now.mail forwarding.now folder.now specs.now)
        (by_hand hand.now.kept (F.state files.old)) (by_hand hand.now.kept (F.state files.new)) result }
{
    let place = folder_place(alloc, hand, folder)?;
    let names = list_folder(alloc, hand.run(), files, &place, folder)?;
    let text = read_sequences_text(alloc, hand.run(), files, &place)?;
    let found = chosen(
        alloc,
        hand,
        forwarding.negation.as_slice(),
        folder,
        specs,
        &names,
        &text,
    )?;
    read_messages(alloc, hand.run(), files, &place, found.as_slice())
}
