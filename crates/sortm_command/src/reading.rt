// Messages are read, and put in order by their keys.
ghost use Rattle.std.specs.Prelude.{◌≡◌, [], ℕ, IfOk};
ghost use Rattle.mh_base.specs.Entries.{entry_text};
ghost use Rattle.file_plans.specs.Plan.{Hand};
ghost use Rattle.file_plans.specs.Follows.{State, Follows, by_hand};
ghost use Rattle.step_plans.specs.CommandFaults.{command_cause};
ghost use Rattle.sortm_plans.specs.Keys.{date_key as date_key_of, text_key as text_key_of};
ghost use Rattle.sortm_plans.specs.Reading.{date_order_read, keys_read, message_by, message_read, order_read, text_order_read};

use crate::SortKey;
use crate::keys::{date_key, text_key};
use crate::ordering::{order_by_dates, order_by_texts};
use command_stages::LIMIT;
use file_plans::{Reading, ask_read};
use folder_files::{Files, Place, Refusal};
use mh_base::{Bytes, BytesList, Duplicate, Entry, List, MsgNum, entry_name};
use std::alloc::{AllocError, Global};
use step_plans::CommandFault;

fn meddled(alloc: Global, place: &Place, number: MsgNum) -> Result<CommandFault, AllocError>
    ensures { IfOk result (λ fault. fault ≡ CommandFault.Meddled place.now (entry_text (Entry.Number number))) }
{
    let name = entry_name(alloc, &Entry::Number(number))?;
    Ok(CommandFault::Meddled(place.duplicate(alloc)?, name))
}

/// A message, by what reading it gave.
fn message_from(
    alloc: Global,
    place: &Place,
    number: MsgNum,
    reading: Reading,
) -> Result<Bytes, CommandFault>
    ensures { (run : ℕ) (x : State) → Follows run command_cause (message_by place.now number reading) x x result }
{
    match reading {
        Reading::Content(bytes) => Ok(bytes),
        Reading::Long(length) => Err(CommandFault::Refused(Refusal::TooLarge {
            length,
            limit: LIMIT,
        })),
        Reading::Gone => Err(meddled(alloc, place, number)?),
    }
}

fn read_message<F: Files>(
    alloc: Global,
    run: u128,
    files: &mut F,
    place: &Place,
    number: MsgNum,
) -> Result<Bytes, CommandFault>
    ensures { (h : Hand)
        → Follows run command_cause (message_read place.now number) (by_hand h (F.state files.old))
        (by_hand h (F.state files.new)) result }
{
    let name = entry_name(alloc, &Entry::Number(number))?;
    let reading = ask_read(alloc, run, files, place, &name, LIMIT)?;
    message_from(alloc, place, number, reading)
}

/// Reads the messages of these numbers one after another, and keeps of each only the date of its field.
fn read_dates<F: Files>(
    alloc: Global,
    run: u128,
    files: &mut F,
    place: &Place,
    field: &[u8],
    numbers: &[MsgNum],
) -> Result<List<Option<i64>>, CommandFault>
    ensures { (h : Hand)
        → Follows run command_cause (keys_read (date_key_of field.now) place.now [] numbers.now)
        (by_hand h (F.state files.old)) (by_hand h (F.state files.new)) result }
{
    let mut dates = List::new(alloc);
    for number in numbers {
        let message = read_message(alloc, run, files, place, *number)?;
        let date = date_key(alloc, field, message.as_slice())?;
        dates.push(date)?;
    }
    Ok(dates)
}

/// The same, and keeps of each only what is compared of its field.
fn read_texts<F: Files>(
    alloc: Global,
    run: u128,
    files: &mut F,
    place: &Place,
    field: &[u8],
    numbers: &[MsgNum],
) -> Result<BytesList, CommandFault>
    ensures { (h : Hand)
        → Follows run command_cause (keys_read (text_key_of field.now) place.now [] numbers.now)
        (by_hand h (F.state files.old)) (by_hand h (F.state files.new)) result }
{
    let mut texts = List::new(alloc);
    for number in numbers {
        let message = read_message(alloc, run, files, place, *number)?;
        let text = text_key(alloc, field, message.as_slice())?;
        texts.push(text)?;
    }
    Ok(texts)
}

fn read_date_order<F: Files>(
    alloc: Global,
    run: u128,
    files: &mut F,
    place: &Place,
    field: &[u8],
    numbers: &[MsgNum],
) -> Result<List<MsgNum>, CommandFault>
    ensures { (h : Hand)
        → Follows run command_cause (date_order_read place.now field.now numbers.now) (by_hand h (F.state files.old))
        (by_hand h (F.state files.new)) result }
{
    let dates = read_dates(alloc, run, files, place, field, numbers)?;
    Ok(order_by_dates(alloc, dates.as_slice(), numbers)?)
}

fn read_text_order<F: Files>(
    alloc: Global,
    run: u128,
    files: &mut F,
    place: &Place,
    field: &[u8],
    numbers: &[MsgNum],
) -> Result<List<MsgNum>, CommandFault>
    ensures { (h : Hand)
        → Follows run command_cause (text_order_read place.now field.now numbers.now) (by_hand h (F.state files.old))
        (by_hand h (F.state files.new)) result }
{
    let texts = read_texts(alloc, run, files, place, field, numbers)?;
    Ok(order_by_texts(alloc, texts, numbers)?)
}

/// Reads the messages of these numbers, and gives the numbers in the order that is asked for.
pub(crate) fn read_order<F: Files>(
    alloc: Global,
    run: u128,
    files: &mut F,
    place: &Place,
    key: &SortKey,
    numbers: &[MsgNum],
) -> Result<List<MsgNum>, CommandFault>
    ensures { (h : Hand)
        → Follows run command_cause (order_read place.now key.now numbers.now) (by_hand h (F.state files.old))
        (by_hand h (F.state files.new)) result }
{
    match key {
        SortKey::Date(field) => read_date_order(
            alloc,
            run,
            files,
            place,
            field.as_slice(),
            numbers,
        ),
        SortKey::Text(field) => read_text_order(
            alloc,
            run,
            files,
            place,
            field.as_slice(),
            numbers,
        ),
    }
}
