// The marks on new messages.
ghost use Rattle.std.specs.Prelude.{◌≡◌, ◌++◌, map, IfOk, OnOk};
ghost use Rattle.sequence_commits.specs.PlainMarks.{plain_mark};
ghost use Rattle.inc_plans.specs.Asked.{asked};
ghost use Rattle.inc_plans.specs.Inc.{add_mark, add_marks, cur_marks, new_marks as new_marks_of};

use crate::IncJob;
use mh_base::{List, MsgNum};
use mh_sequences::{Mark, MarkList, NumSet, SeqName};
use opened_folders::number_set;
use std::alloc::{AllocError, Global};

/// The first of them becomes the current message, where one does.
fn push_cur(marks: &mut MarkList, change_cur: bool, numbers: &[MsgNum]) -> Result<(), AllocError>
    ensures { OnOk result (map plain_mark marks.new ≡ map plain_mark marks.old ++ cur_marks change_cur numbers.now) }
{
    if change_cur {
        if let Some(first) = numbers.first() {
            marks.push(Mark::Cur(Some(*first)))?;
        }
    }
    Ok(())
}

/// All of them come to the sequence of this name.
fn addition(alloc: Global, name: &SeqName, numbers: &NumSet) -> Result<Mark, AllocError>
    ensures { IfOk result (λ m. plain_mark m ≡ add_mark numbers.now.runs name.now) }
{
    Ok(Mark::Add {
        name: name.copy(alloc)?,
        numbers: numbers.copy(alloc)?,
        public: None,
    })
}

/// The same of each of these sequences.
fn push_additions(
    alloc: Global,
    marks: &mut MarkList,
    names: &[SeqName],
    numbers: &NumSet,
) -> Result<(), AllocError>
    ensures { OnOk result
        (map plain_mark marks.new ≡ map plain_mark marks.old ++ add_marks numbers.now.runs names.now) }
{
    for name in names {
        marks.push(addition(alloc, name, numbers)?)?;
    }
    Ok(())
}

/// The marks on the new messages, which have these numbers.
pub(crate) fn new_marks(
    alloc: Global,
    job: &IncJob,
    numbers: &[MsgNum],
) -> Result<MarkList, AllocError>
    ensures { IfOk result (λ marks. map plain_mark marks ≡ new_marks_of (asked job.now) numbers.now) }
{
    let set = number_set(alloc, numbers)?;
    let mut marks = List::new(alloc);
    push_cur(&mut marks, job.change_cur, numbers)?;
    push_additions(alloc, &mut marks, job.unseen.as_slice(), &set)?;
    Ok(marks)
}
