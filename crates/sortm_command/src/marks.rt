// The marks of messages that change places.
ghost use Rattle.std.specs.Prelude.{◌≡◌, ◌∷◌, [], map, IfOk};
ghost use Rattle.mh_sequences.specs.Runs.{set_of};
ghost use Rattle.mh_sequences.specs.Sequences.{AreSequences, told_entry};
ghost use Rattle.sequence_commits.specs.PlainMarks.{plain_mark};
ghost use Rattle.sequence_commits.specs.RunsOfAll.{set_among};
ghost use Rattle.sortm_plans.specs.Marking.{pairs_of, set_again as set_again_of};

use message_places::Move;
use mh_base::{List, MsgNum};
use mh_sequences::{Mark, MarkList, Pair, PairList, SeqName, Sequences, UserSequence};
use opened_folders::number_set;
use std::alloc::{AllocError, Global};

/// The mark that takes these messages out of all sequences.
pub(crate) fn withdrawing(alloc: Global, numbers: &[MsgNum]) -> Result<MarkList, AllocError>
    ensures { IfOk result (λ marks. map plain_mark marks ≡ Mark.Withdraw (set_of (set_among numbers.now) 0) ∷ []) }
{
    let numbers = number_set(alloc, numbers)?;
    let mut marks = List::new(alloc);
    marks.push(Mark::Withdraw { numbers })?;
    Ok(marks)
}

/// The mark that gives a sequence back just what it has now.
fn set_again(alloc: Global, name: &SeqName, user: &UserSequence) -> Result<Mark, AllocError>
    ensures { IfOk result (λ mark. plain_mark mark ≡ set_again_of (told_entry (name.now, user.now))) }
{
    let name = name.copy(alloc)?;
    let numbers = user.numbers.copy(alloc)?;
    let public = Some(user.public);
    Ok(Mark::Set {
        name,
        numbers,
        public,
    })
}

/// The marks that give all sequences back what they have now.
pub(crate) fn kept_marks(alloc: Global, sequences: &Sequences) -> Result<MarkList, AllocError>
    ensures marks { IfOk result (λ marks. map plain_mark marks ≡ map set_again_of sequences.now.users) }
    ensures valid { AreSequences sequences.now.users }
{
    let mut marks = List::new(alloc);
    for (name, user) in sequences.users() {
        marks.push(set_again(alloc, name, user)?)?;
    }
    Ok(marks)
}

/// The numbers that messages had, each with the one that it has now.
pub(crate) fn pairs(alloc: Global, moves: &[Move], ends: &[MsgNum]) -> Result<PairList, AllocError>
    ensures { IfOk result (λ pairs. pairs ≡ pairs_of moves.now ends.now) }
{
    let mut pairs = List::new(alloc);
    for i in 0..moves.len().min(ends.len()) {
        pairs.push(Pair {
            from: moves[i].from,
            to: ends[i],
        })?;
    }
    Ok(pairs)
}
