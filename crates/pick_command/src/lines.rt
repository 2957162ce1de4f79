// The lines that tell which messages match.
ghost use Rattle.std.specs.Prelude.{◌≡◌, [], map, IfOk};
ghost use Rattle.pick_plans.specs.Lines.{lines_for, number_line as number_line_of, zero_line as zero_line_of};

use itoa::Buffer;
use mh_base::{Bytes, BytesList, List, MsgNum};
use std::alloc::{AllocError, Global};

#[tactic(auto, unfolding(pick_plans::specs::Lines::number_line))]
fn number_line(alloc: Global, number: MsgNum) -> Result<Bytes, AllocError>
    ensures { IfOk result (λ l. l ≡ number_line_of number) }
{
    let mut buffer = Buffer::new();
    let mut line = Bytes::from_slice(alloc, buffer.format(number.get()).as_bytes())?;
    line.extend(b"\n")?;
    Ok(line)
}

/// A line for each of these numbers.
fn number_lines(alloc: Global, numbers: &[MsgNum]) -> Result<BytesList, AllocError>
    ensures { IfOk result (λ ls. ls ≡ map number_line_of numbers.now) }
{
    let mut lines = List::new(alloc);
    for number in numbers {
        lines.push(number_line(alloc, *number)?)?;
    }
    Ok(lines)
}

fn zero_line(alloc: Global) -> Result<Bytes, AllocError>
    ensures { IfOk result (λ l. l ≡ zero_line_of) }
{
    Bytes::from_slice(alloc, b"0\n")
}

fn zero_lines(alloc: Global) -> Result<BytesList, AllocError>
    ensures { IfOk result (λ ls. ls ≡ lines_for []) }
{
    let mut lines = List::new(alloc);
    lines.push(zero_line(alloc)?)?;
    Ok(lines)
}

/// A line for each message that matches, or one of zero where none does.
pub(crate) fn lines(alloc: Global, found: &[MsgNum]) -> Result<BytesList, AllocError>
    ensures { IfOk result (λ ls. ls ≡ lines_for found.now) }
{
    if found.is_empty() {
        zero_lines(alloc)
    } else {
        number_lines(alloc, found)
    }
}
