// A set as a list of its numbers.
ghost use Rattle.std.specs.Prelude.{◌≡◌, ◌++◌, ◌+◌, ◌-◌, slice_get, IfOk, OnOk};
ghost use Rattle.std.specs.List.{range_with_len};
ghost use Rattle.mh_sequences.specs.Runs.{numbers_of};
ghost use Rattle.command_stages.specs.RunNumbers.{AreRunNumbers};

use mh_base::MsgNum;
use mh_sequences::{NumSet, Run};
use std::alloc::{AllocError, Global};

fn push_run(numbers: &mut Vec<MsgNum>, run: Run) -> Result<(), AllocError>
    ensures { OnOk result (numbers.new.items ≡ numbers.old.items ++ range_with_len run.from (run.to + 1 - run.from)) }
{
    for number in run.from.get()..run.to.get() + 1 {
        numbers.push(MsgNum::new(number).unwrap())?;
    }
    Ok(())
}

/// The numbers of the run at this place, where there is one.
fn push_at(numbers: &mut Vec<MsgNum>, set: &NumSet, index: u64) -> Result<(), AllocError>
    ensures { OnOk result (AreRunNumbers (slice_get set.now.runs index) numbers.old.items numbers.new.items) }
{
    match set.run_at(index) {
        Some(run) => push_run(numbers, run),
        None => Ok(()),
    }
}

/// The numbers of the set, ascending.
pub fn numbers(alloc: Global, set: &NumSet) -> Result<Vec<MsgNum>, AllocError>
    ensures { IfOk result (λ list. list.items ≡ numbers_of set.now.runs) }
{
    let mut numbers = Vec::new(alloc);
    for index in 0..set.runs() {
        push_at(&mut numbers, set, index)?;
    }
    Ok(numbers)
}
