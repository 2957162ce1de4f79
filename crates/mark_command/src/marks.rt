// The marks that `mark` sets.
ghost use Rattle.std.specs.Prelude.{◌≡◌, map, IfOk};
ghost use Rattle.sequence_commits.specs.PlainMarks.{plain_mark};
ghost use Rattle.mark_command.specs.Marking.{all_but as all_but_of, mark_with, marks_for, numbers_marked};

use crate::{MarkAct, MarkJob};
use mh_base::List;
use mh_sequences::{Join, Mark, MarkList, NumSet, SeqName};
use std::alloc::{AllocError, Global};

/// The folder's messages but for the chosen ones.
fn all_but(alloc: Global, listing: &NumSet, chosen: &NumSet) -> Result<NumSet, AllocError>
    ensures { IfOk result (λ s. s.runs ≡ all_but_of listing.now.runs chosen.now.runs) }
{
    listing.join(alloc, chosen, Join::FirstAlone)
}

/// The messages of which a mark speaks.
fn numbers(
    alloc: Global,
    act: MarkAct,
    listing: &NumSet,
    chosen: &NumSet,
) -> Result<NumSet, AllocError>
    ensures { IfOk result (λ s. s.runs ≡ numbers_marked act listing.now.runs chosen.now.runs) }
{
    match act {
        MarkAct::Add | MarkAct::Delete | MarkAct::Set => chosen.copy(alloc),
        MarkAct::SetOthers => all_but(alloc, listing, chosen),
    }
}

fn mark_of(act: MarkAct, name: SeqName, numbers: NumSet, public: Option<bool>) -> Mark
    ensures { plain_mark result ≡ mark_with act public numbers.runs name }
{
    match act {
        MarkAct::Add => Mark::Add {
            name,
            numbers,
            public,
        },
        MarkAct::Delete => Mark::Delete {
            name,
            numbers,
            public,
        },
        MarkAct::Set | MarkAct::SetOthers => Mark::Set {
            name,
            numbers,
            public,
        },
    }
}

/// The mark on the sequence of this name.
fn mark(
    alloc: Global,
    act: MarkAct,
    name: &SeqName,
    numbers: &NumSet,
    public: Option<bool>,
) -> Result<Mark, AllocError>
    ensures { IfOk result (λ m. plain_mark m ≡ mark_with act public numbers.now.runs name.now) }
{
    let name = name.copy(alloc)?;
    let numbers = numbers.copy(alloc)?;
    Ok(mark_of(act, name, numbers, public))
}

fn marks_on(
    alloc: Global,
    job: &MarkJob,
    act: MarkAct,
    numbers: &NumSet,
) -> Result<MarkList, AllocError>
    ensures { IfOk result
        (λ ms. map plain_mark ms ≡ map (mark_with act job.now.public numbers.now.runs) job.now.names) }
{
    let mut marks = List::new(alloc);
    for name in job.names.as_slice() {
        marks.push(mark(alloc, act, name, numbers, job.public)?)?;
    }
    Ok(marks)
}

/// A mark on each of the job's sequences.
pub(crate) fn marks(
    alloc: Global,
    job: &MarkJob,
    act: MarkAct,
    listing: &NumSet,
    chosen: &NumSet,
) -> Result<MarkList, AllocError>
    ensures { IfOk result (λ ms. map plain_mark ms ≡ marks_for job.now act listing.now.runs chosen.now.runs) }
{
    let numbers = numbers(alloc, act, listing, chosen)?;
    marks_on(alloc, job, act, &numbers)
}
