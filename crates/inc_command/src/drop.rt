// The second pass over a drop: each message is taken in that a piece finishes.
ghost use Rattle.std.specs.Prelude.{◌≡◌, ◌≤◌, ◌+◌, ◌-◌, ℕ, [], List as TextOf, IfOk, min, length as length_of};
ghost use Rattle.mbox_drop.specs.Cutting.{HasTaken};
ghost use Rattle.file_plans.specs.Follows.{Follows, by_out};
ghost use Rattle.step_plans.specs.CommandFaults.{command_cause};
ghost use Rattle.inc_plans.specs.DropTaken.{drop_taken, ended_taken, piece_taken, rest_taken, where_of};
ghost use Rattle.inc_plans.specs.Passing.{Takes};
ghost use Rattle.inc_plans.specs.Targets.{told_by};

use crate::cutting::{end, feed};
use crate::intake::take_all;
use crate::piece::{PIECE, drop_changed, read_piece};
use crate::{DropSize, Taken, Target};
use folder_files::{FilePath, Files};
use mbox_drop::DropCutter;
use mh_base::{BytesList, List, Sink};
use std::alloc::Global;
use step_plans::{CommandFault, Hand};

/// The next piece is read, and the messages that it finishes are taken in.
fn take_piece<F: Files, O: Sink>(
    alloc: Global,
    hand: &mut Hand,
    files: &mut F,
    out: &mut O,
    target: Target,
    path: &FilePath,
    length: u64,
    at: u64,
    cutter: &mut DropCutter,
    taken: Taken,
) -> Result<Taken, CommandFault>
    requires within { at ≤ length }
    requires range { taken.highest ≤ 999999 }
    ensures takes { (d : TextOf ℕ) → HasTaken cutter.old d → length_of d ≡ at
        → Takes hand.old.run
        (piece_taken
        (where_of hand.old.run target.entry.folder.now target.entry.place.now
        (told_by target.entry)) path.now length d taken)
        (by_out hand.old.kept (F.state files.old) (O.state out.old))
        (by_out hand.new.kept (F.state files.new) (O.state out.new)) cutter.new
        (at + min (length - at) 65536) result }
    ensures same { (hand.new.run ≡ hand.old.run) × (hand.new.mail ≡ hand.old.mail) }
    ensures range { IfOk result (λ t. t.highest ≤ 999999) }
{
    let asked = (length - at).min(PIECE);
    let bytes = read_piece(alloc, hand.run(), files, path, at, asked)?;
    let given = feed(cutter, bytes.as_slice())?;
    take_all(alloc, hand, files, out, target, taken, given)
}

/// All pieces are read, up to this length.
fn take_rest<F: Files, O: Sink>(
    alloc: Global,
    hand: &mut Hand,
    files: &mut F,
    out: &mut O,
    target: Target,
    path: &FilePath,
    length: u64,
    cutter: &mut DropCutter,
    first: Taken,
) -> Result<Taken, CommandFault>
    requires { first.highest ≤ 999999 }
    ensures takes { HasTaken cutter.old []
        → Takes hand.old.run
        (rest_taken
        (where_of hand.old.run target.entry.folder.now target.entry.place.now
        (told_by target.entry)) path.now length length (record { bytes = []; taken = first }))
        (by_out hand.old.kept (F.state files.old) (O.state out.old))
        (by_out hand.new.kept (F.state files.new) (O.state out.new)) cutter.new length result }
    ensures same { (hand.new.run ≡ hand.old.run) × (hand.new.mail ≡ hand.old.mail) }
    ensures range { IfOk result (λ t. t.highest ≤ 999999) }
{
    let mut taken = first;
    let mut at = 0;
    while at < length {
        taken = take_piece(
            alloc, hand, files, out, target, path, length, at, cutter, taken,
        )?;
        at += (length - at).min(PIECE);
    }
    Ok(taken)
}

/// The last message is taken in.
fn take_last<F: Files, O: Sink>(
    alloc: Global,
    hand: &mut Hand,
    files: &mut F,
    out: &mut O,
    target: Target,
    cutter: DropCutter,
    taken: Taken,
) -> Result<Taken, CommandFault>
    requires { taken.highest ≤ 999999 }
    ensures plan { (d : TextOf ℕ) → HasTaken cutter d
        → Follows hand.old.run command_cause
        (ended_taken (where_of hand.old.run target.entry.folder.now target.entry.place.now (told_by target.entry))
        (record { bytes = d; taken = taken })) (by_out hand.old.kept (F.state files.old) (O.state out.old))
        (by_out hand.new.kept (F.state files.new) (O.state out.new)) result }
    ensures same { (hand.new.run ≡ hand.old.run) × (hand.new.mail ≡ hand.old.mail) }
{
    let Some(message) = end(cutter)? else {
        return Ok(taken);
    };
    let mut messages = BytesList::new(alloc);
    messages.push(message)?;
    take_all(alloc, hand, files, out, target, taken, messages)
}

/// Reads the first so many bytes of a drop again, and takes its messages in, above the highest number of the folder.
/// The drop was changed where it is none, has a message that is too long, or not as many messages as were counted.
pub fn take_drop<F: Files, O: Sink>(
    alloc: Global,
    hand: &mut Hand,
    files: &mut F,
    out: &mut O,
    target: Target,
    path: &FilePath,
    size: DropSize,
    highest: u32,
) -> Result<Taken, CommandFault>
    requires { highest ≤ 999999 }
    ensures plan { Follows hand.old.run command_cause
        (drop_taken
        (where_of hand.old.run target.entry.folder.now target.entry.place.now
        (told_by target.entry)) path.now size.length size.messages highest)
        (by_out hand.old.kept (F.state files.old) (O.state out.old))
        (by_out hand.new.kept (F.state files.new) (O.state out.new)) result }
    ensures same { (hand.new.run ≡ hand.old.run) × (hand.new.mail ≡ hand.old.mail) }
{
    let mut cutter = DropCutter::new(alloc);
    let numbers = List::new(alloc);
    let first = Taken { numbers, highest };
    let taken = take_rest(
        alloc,
        hand,
        files,
        out,
        target,
        path,
        size.length,
        &mut cutter,
        first,
    )?;
    let taken = take_last(alloc, hand, files, out, target, cutter, taken)?;
    if taken.numbers.len() as u64 != size.messages {
        return Err(drop_changed());
    }
    Ok(taken)
}
