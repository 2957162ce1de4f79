// The first pass over a drop: its messages are counted, and none of it is kept.
ghost use Rattle.std.specs.Prelude.{◌≡◌, ◌≤◌, ◌+◌, ℕ, List, length as length_of};
ghost use Rattle.mbox_drop.specs.Counting.{HasCounted};
ghost use Rattle.file_plans.specs.Plan.{Hand};
ghost use Rattle.file_plans.specs.Follows.{Follows, by_hand};
ghost use Rattle.step_plans.specs.CommandFaults.{command_cause};
ghost use Rattle.inc_plans.specs.Counting.{counted_by, drop_counted, rest_read};
ghost use Rattle.inc_plans.specs.Passing.{Passes};

use crate::DropSize;
use crate::head::read_head;
use crate::piece::{PIECE, read_piece};
use folder_files::{FilePath, Files, Refusal};
use mbox_drop::DropCounter;
use std::alloc::Global;
use step_plans::CommandFault;

/// The longest message, in bytes.
const LIMIT: u64 = 67_108_864;

/// What was counted in a drop of this length.
fn size(length: u64, counter: &DropCounter) -> Result<DropSize, CommandFault>
    ensures { (d : List ℕ) → HasCounted counter.now d → length ≡ length_of d → result ≡ counted_by d }
{
    let Ok(messages) = counter.end() else {
        return Err(CommandFault::Refused(Refusal::NotADrop));
    };
    match counter.too_long() {
        Some(length) => {
            let limit = LIMIT;
            Err(CommandFault::Refused(Refusal::TooLarge { length, limit }))
        }
        None => Ok(DropSize { length, messages }),
    }
}

/// The rest of a drop of which so many bytes were counted.
fn count_rest<F: Files>(
    alloc: Global,
    run: u128,
    files: &mut F,
    path: &FilePath,
    length: u64,
    from: u64,
    first: DropCounter,
) -> Result<DropCounter, CommandFault>
    requires begun { from ≤ length }
    requires few { length ≤ 268435456 }
    ensures { (h : Hand) (d : List ℕ) (fuel : ℕ) → HasCounted first d → length_of d ≡ from → length ≤ from + fuel
        → Passes run length (rest_read path.now length fuel d) (by_hand h (F.state files.old))
        (by_hand h (F.state files.new)) result }
{
    let mut at = from;
    let mut counter = first;
    while at < length {
        let asked = (length - at).min(PIECE);
        let bytes = read_piece(alloc, run, files, path, at, asked)?;
        counter.feed(bytes.as_slice());
        at += asked;
    }
    Ok(counter)
}

/// Reads a drop from its begin to the length that its first piece tells, and counts its messages.
pub fn count_drop<F: Files>(
    alloc: Global,
    run: u128,
    files: &mut F,
    path: &FilePath,
) -> Result<DropSize, CommandFault>
    ensures plan { (h : Hand)
        → Follows run command_cause (drop_counted path.now) (by_hand h (F.state files.old))
        (by_hand h (F.state files.new)) result }
{
    let head = read_head(alloc, run, files, path)?;
    let mut counter = DropCounter::new();
    counter.feed(head.bytes.as_slice());
    let from = head.bytes.len() as u64;
    let counter = count_rest(alloc, run, files, path, head.length, from, counter)?;
    size(head.length, &counter)
}
