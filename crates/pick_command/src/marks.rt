// The marks that `pick` sets.
ghost use Rattle.std.specs.Prelude.{◌≡◌, map, IfOk};
ghost use Rattle.sequence_commits.specs.PlainMarks.{plain_mark};
ghost use Rattle.sequence_commits.specs.RunsOfAll.{set_among};
ghost use Rattle.pick_plans.specs.Marking.{mark_with, marks_for};

use crate::{PickAct, PickMarks};
use mh_base::{List, MsgNum};
use mh_sequences::{Mark, MarkList, NumSet, SeqName};
use opened_folders::number_set;
use std::alloc::{AllocError, Global};

fn mark_of(act: PickAct, name: SeqName, numbers: NumSet, public: Option<bool>) -> Mark
    ensures { plain_mark result ≡ mark_with act public numbers.runs name }
{
    match act {
        PickAct::Set => Mark::Set {
            name,
            numbers,
            public,
        },
        PickAct::Add => Mark::Add {
            name,
            numbers,
            public,
        },
    }
}

/// The mark on the sequence of this name.
fn mark(
    alloc: Global,
    act: PickAct,
    name: &SeqName,
    numbers: &NumSet,
    public: Option<bool>,
) -> Result<Mark, AllocError>
    ensures { IfOk result (λ m. plain_mark m ≡ mark_with act public numbers.now.runs name.now) }
{
    let name = name.copy(alloc)?;
    let numbers = numbers.copy(alloc)?;
    Ok(mark_of(act, name, numbers, public))
}

fn marks_on(alloc: Global, marks: &PickMarks, numbers: &NumSet) -> Result<MarkList, AllocError>
    ensures { IfOk result (λ ms. map plain_mark ms ≡ marks_for marks.now numbers.now.runs) }
{
    let mut all = List::new(alloc);
    for name in marks.names.as_slice() {
        all.push(mark(alloc, marks.act, name, numbers, marks.public)?)?;
    }
    Ok(all)
}

/// A mark on each of these sequences, where these messages match.
pub(crate) fn marks(
    alloc: Global,
    marks: &PickMarks,
    found: &[MsgNum],
) -> Result<MarkList, AllocError>
    ensures { IfOk result (λ ms. map plain_mark ms ≡ marks_for marks.now (set_among found.now)) }
{
    let numbers = number_set(alloc, found)?;
    marks_on(alloc, marks, &numbers)
}
