// Slots of runs, of which the first may be unused.
ghost use Rattle.std.specs.Prelude.{◌≡◌, ◌≤◌, ◌<◌, ◌-◌, ◌+◌, ◌∷◌, ◌++◌, length, take, drop, OnOk, OnErr, IsOk, vec_len};
ghost use Rattle.std.specs.Vec.{vec_capacity};

use crate::Run;
use crate::run::number;
use std::alloc::AllocError;

/// Takes the slots from one place up to another out.
pub(crate) fn cut_out(slots: &mut Vec<Run>, start: usize, end: usize)
    requires order { start ≤ end }
    requires within { end ≤ length slots.old.items }
    ensures items { slots.new.items ≡ take start slots.old.items ++ drop end slots.old.items }
    ensures len { vec_len slots.new + (end - start) ≡ vec_len slots.old }
    ensures capacity { vec_capacity slots.new ≡ vec_capacity slots.old }
{
    let _ = slots.drain(start..end);
}

/// Puts a run into a slot of its own at a place, or leaves all as it was.
pub(crate) fn put(slots: &mut Vec<Run>, at: usize, run: Run) -> Result<(), AllocError>
    requires { at ≤ vec_len slots.old }
    ensures ok { OnOk result (slots.new.items ≡ take at slots.old.items ++ run ∷ drop at slots.old.items) }
    ensures len { OnOk result (vec_len slots.new ≡ vec_len slots.old + 1) }
    ensures err { OnErr result (slots.new.items ≡ slots.old.items) }
    ensures same { OnErr result (vec_capacity slots.new ≡ vec_capacity slots.old) }
    ensures capacity { vec_capacity slots.old ≤ vec_capacity slots.new }
    ensures succeeds { vec_len slots.old < vec_capacity slots.old → IsOk result }
{
    slots.reserve(1)?;
    slots.insert(at, run)?;
    Ok(())
}

/// Moves the first runs one slot to the front, and puts a run behind them.
pub(crate) fn put_before(slots: &mut Vec<Run>, start: usize, at: usize, run: Run)
    requires room { 1 ≤ start }
    requires within { start + at ≤ vec_len slots.old }
    ensures runs { drop (start - 1) slots.new.items ≡ take at (drop start slots.old.items) ++ run
        ∷ drop at (drop start slots.old.items) }
    ensures len { vec_len slots.new ≡ vec_len slots.old }
    ensures capacity { vec_capacity slots.new ≡ vec_capacity slots.old }
{
    slots.copy_within(start..start + at, start - 1);
    slots[start - 1 + at] = run;
}

/// Moves the first runs into the slots of those from one place up to another.
pub(crate) fn cut_before(slots: &mut Vec<Run>, start: usize, from: usize, to: usize)
    requires order { from ≤ to }
    requires within { start + to ≤ vec_len slots.old }
    ensures runs { drop (start + (to - from)) slots.new.items ≡ take from (drop start slots.old.items)
        ++ drop to (drop start slots.old.items) }
    ensures len { vec_len slots.new ≡ vec_len slots.old }
    ensures capacity { vec_capacity slots.new ≡ vec_capacity slots.old }
{
    slots.copy_within(start..start + from, start + (to - from));
}

/// Moves all so many slots away from the front.
fn move_back(slots: &mut Vec<Run>, by: usize)
    requires { vec_len slots.old + by ≤ vec_capacity slots.old }
    ensures runs { drop by slots.new.items ≡ slots.old.items }
    ensures len { vec_len slots.new ≡ vec_len slots.old + by }
    ensures capacity { vec_capacity slots.old ≤ vec_capacity slots.new }
{
    let filler = Run {
        from: number(1),
        to: number(1),
    };
    let len = slots.len();
    let _ = slots.resize(len + by, filler);
    slots.copy_within(0..len, by);
}

/// Where the runs begin once a slot before them is unused: if none is, half of the free slots go there.
pub(crate) fn room_before(slots: &mut Vec<Run>, start: usize) -> usize
    requires within { start ≤ vec_len slots.old }
    requires room { 1 ≤ vec_capacity slots.old - vec_len slots.old + start }
    ensures runs { drop result slots.new.items ≡ drop start slots.old.items }
    ensures some { 1 ≤ result }
    ensures within { result ≤ vec_len slots.new }
    ensures spare { vec_capacity slots.old - vec_len slots.old + start ≤ vec_capacity slots.new - vec_len slots.new
        + result }
{
    if start > 0 {
        return start;
    }
    let room = slots.capacity() - slots.len();
    let by = room - room / 2;
    move_back(slots, by);
    by
}

/// Where the runs begin once a slot behind them is free, if any is: if none is there, half of those before them go
/// there.
pub(crate) fn room_behind(slots: &mut Vec<Run>, start: usize) -> usize
    requires { start ≤ vec_len slots.old }
    ensures runs { drop result slots.new.items ≡ drop start slots.old.items }
    ensures within { result ≤ vec_len slots.new }
    ensures spare { vec_capacity slots.new - vec_len slots.new + result ≡ vec_capacity slots.old - vec_len slots.old
        + start }
    ensures some { 1 ≤ vec_capacity slots.old - vec_len slots.old + start → vec_len slots.new < vec_capacity slots.new }
{
    if slots.len() < slots.capacity() {
        return start;
    }
    let rest = start / 2;
    cut_out(slots, rest, start);
    rest
}
