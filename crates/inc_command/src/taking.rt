// A message is taken in.
ghost use Rattle.std.specs.Prelude.{◌≡◌, ◌≤◌, ℕ, IfOk, OnOk};
ghost use Rattle.folder_files.specs.Story.{FilesState};
ghost use Rattle.file_plans.specs.Plan.{Hand as Kept, lifted};
ghost use Rattle.file_plans.specs.Follows.{Follows, by_hand, by_out};
ghost use Rattle.step_plans.specs.CommandFaults.{command_cause};
ghost use Rattle.command_stages.specs.Endings.{of_plan};
ghost use Rattle.message_puts.specs.Putting.{message_stored};
ghost use Rattle.message_lines.specs.MessageText.{line_of};
ghost use Rattle.inc_plans.specs.Taking.{first_of as first_of_all, message_taken, message_told, standing_for};
ghost use Rattle.inc_plans.specs.Targets.{told_by};

use crate::Target;
use command_stages::fault_in;
use file_plans::say;
use folder_files::Files;
use message_lines::{Standing, is_current, message_line};
use message_puts::store;
use mh_base::{Bytes, Duplicate, MsgNum, Sink};
use std::alloc::{AllocError, Global};
use step_plans::{CommandFault, Hand};

/// The first of the numbers that new messages got, and then this one.
fn first_of(numbers: &[MsgNum], number: MsgNum) -> MsgNum
    ensures { result ≡ first_of_all numbers.now number }
{
    match numbers.first() {
        Some(first) => *first,
        None => number,
    }
}

/// How a new message stands, where the first of them has this number.
fn standing(target: Target, first: MsgNum, number: MsgNum) -> Standing
    ensures { result
        ≡ standing_for target.entry.change_cur target.entry.unseen target.entry.sequences.now.cur first number }
{
    let current = if target.change_cur {
        first == number
    } else {
        is_current(target.sequences, number)
    };
    Standing {
        current,
        unseen: target.unseen,
    }
}

/// The line of a new message, after those that got these numbers.
fn line(
    alloc: Global,
    target: Target,
    numbers: &[MsgNum],
    number: MsgNum,
    bytes: &[u8],
) -> Result<Bytes, AllocError>
    ensures { IfOk result
        (λ text. text ≡ line_of ((told_by target.entry).line (first_of_all numbers.now number)) number bytes.now) }
{
    let standing = standing(target, first_of(numbers, number), number);
    message_line(alloc, target.look, standing, number, bytes)
}

/// A message is put into this folder, which is made safe.
fn store_in<F: Files>(
    alloc: Global,
    hand: &mut Hand,
    files: &mut F,
    target: Target,
    highest: u32,
    bytes: &mut Bytes,
) -> Result<MsgNum, CommandFault>
    requires { highest ≤ 999999 }
    ensures plan { Follows hand.old.run command_cause
        (lifted (of_plan target.entry.folder.now)
        (message_stored hand.old.run target.entry.place.now highest bytes.old))
        (by_hand hand.old.kept (F.state files.old)) (by_hand hand.new.kept (F.state files.new)) result }
    ensures same { (hand.new.run ≡ hand.old.run) × (hand.new.mail ≡ hand.old.mail) }
    ensures bytes { OnOk result (bytes.new ≡ bytes.old) }
{
    let folder = target.folder.duplicate(alloc)?;
    match store(alloc, hand, files, target.place, highest, bytes) {
        Ok(number) => Ok(number),
        Err(fault) => Err(fault_in(folder, fault)),
    }
}

/// Its line is written, but where nothing is to be.
fn tell<O: Sink>(
    alloc: Global,
    out: &mut O,
    target: Target,
    numbers: &[MsgNum],
    number: MsgNum,
    bytes: &Bytes,
) -> Result<(), CommandFault>
    ensures { (run : ℕ) (h : Kept) (f : FilesState)
        → Follows run command_cause (message_told (told_by target.entry) numbers.now number bytes.now)
        (by_out h f (O.state out.old)) (by_out h f (O.state out.new)) result }
{
    if target.silent {
        return Ok(());
    }
    let line = line(alloc, target, numbers, number, bytes.as_slice())?;
    say(out, line.as_slice())?;
    Ok(())
}

/// A message is put into the folder after those that got these numbers, and the folder is made safe; and only then its
/// line is written.
pub(crate) fn take<F: Files, O: Sink>(
    alloc: Global,
    hand: &mut Hand,
    files: &mut F,
    out: &mut O,
    target: Target,
    numbers: &[MsgNum],
    highest: u32,
    bytes: &mut Bytes,
) -> Result<MsgNum, CommandFault>
    requires { highest ≤ 999999 }
    ensures plan { Follows hand.old.run command_cause
        (message_taken hand.old.run target.entry.folder.now target.entry.place.now
        (told_by target.entry) numbers.now highest bytes.old)
        (by_out hand.old.kept (F.state files.old) (O.state out.old))
        (by_out hand.new.kept (F.state files.new) (O.state out.new)) result }
    ensures same { (hand.new.run ≡ hand.old.run) × (hand.new.mail ≡ hand.old.mail) }
{
    let number = store_in(alloc, hand, files, target, highest, bytes)?;
    tell(alloc, out, target, numbers, number, bytes)?;
    Ok(number)
}
