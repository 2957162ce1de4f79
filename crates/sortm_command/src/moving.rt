// Messages change places, and their marks go with them.
ghost use Rattle.std.specs.Prelude.{◌≡◌, ◌++◌, ◌∷◌, [], map, IfOk, OnOk};
ghost use Rattle.file_plans.specs.Follows.{Follows, by_hand};
ghost use Rattle.message_places.specs.Order.{moves_of};
ghost use Rattle.message_places.specs.Places.{slots};
ghost use Rattle.opening_plans.specs.Opening.{with_sequences};
ghost use Rattle.sequence_commits.specs.Committing.{changed_sequences};
ghost use Rattle.sequence_commits.specs.Marking.{marked_by_all};
ghost use Rattle.sequence_commits.specs.PlainMarks.{plain_mark};
ghost use Rattle.step_plans.specs.Hands.{mail_place};
ghost use Rattle.step_plans.specs.PlanFaults.{plan_cause};
ghost use Rattle.sortm_plans.specs.Marking.{gone_along};
ghost use Rattle.sortm_plans.specs.Moving.{marked_moved, moved_if, sequences_after};
ghost use Rattle.sortm_plans.specs.Sort.{places_changed};
ghost use Rattle.refile_plans.specs.Rmm.{withdrawn};

use crate::marks::{kept_marks, pairs, withdrawing};
use folder_files::Files;
use message_places::{Move, arrange};
use mh_base::{List, MsgNum};
use mh_sequences::{Mark, MarkList, PairList};
use opened_folders::{Opened, commit_marks};
use std::alloc::{AllocError, Global};
use step_plans::{Hand, PlanFault};

/// The moves by which messages that stand at these slots come to stand there in this order.
pub fn moves(alloc: Global, order: &[MsgNum], places: &[MsgNum]) -> Result<List<Move>, AllocError>
    ensures { IfOk result (λ moves. moves ≡ moves_of order.now places.now) }
{
    let mut moves = List::new(alloc);
    for i in 0..order.len().min(places.len()) {
        let (from, slot) = (order[i], places[i]);
        if from != slot {
            moves.push(Move { from, slot })?;
        }
    }
    Ok(moves)
}

/// The slots of moves.
fn moving(alloc: Global, moves: &[Move]) -> Result<List<MsgNum>, AllocError>
    ensures { IfOk result (λ numbers. numbers ≡ slots moves.now) }
{
    let mut numbers = List::new(alloc);
    for one in moves {
        numbers.push(one.slot)?;
    }
    Ok(numbers)
}

/// These messages leave all sequences.
fn withdraw<F: Files>(
    alloc: Global,
    hand: &mut Hand,
    files: &mut F,
    opened: &mut Opened,
    numbers: &[MsgNum],
) -> Result<(), PlanFault>
    ensures plan { Follows hand.old.run plan_cause
        (changed_sequences hand.old.run opened.old.place (mail_place hand.old) opened.old.folder opened.old.sequences
        (withdrawn numbers.now opened.old.sequences)) (by_hand hand.old.kept (F.state files.old))
        (by_hand hand.new.kept (F.state files.new)) result }
    ensures left { OnOk result (opened.new ≡ with_sequences (withdrawn numbers.now opened.old.sequences) opened.old) }
    ensures same { (hand.new.run ≡ hand.old.run) × (hand.new.mail ≡ hand.old.mail) }
{
    let marks = withdrawing(alloc, numbers)?;
    commit_marks(alloc, hand, files, opened, marks.as_slice())
}

/// The sequences get back what these marks give them, and then these numbers move.
fn restore<F: Files>(
    alloc: Global,
    hand: &mut Hand,
    files: &mut F,
    opened: &mut Opened,
    mut marks: MarkList,
    pairs: PairList,
) -> Result<(), PlanFault>
    ensures plan { Follows hand.old.run plan_cause
        (changed_sequences hand.old.run opened.old.place (mail_place hand.old) opened.old.folder opened.old.sequences
        (marked_by_all (map plain_mark marks ++ Mark.Move pairs ∷ []) opened.old.sequences))
        (by_hand hand.old.kept (F.state files.old)) (by_hand hand.new.kept (F.state files.new)) result }
    ensures left { OnOk result
        (opened.new
        ≡ with_sequences
        (marked_by_all (map plain_mark marks ++ Mark.Move pairs ∷ []) opened.old.sequences) opened.old) }
    ensures same { (hand.new.run ≡ hand.old.run) × (hand.new.mail ≡ hand.old.mail) }
{
    marks.push(Mark::Move { pairs })?;
    commit_marks(alloc, hand, files, opened, marks.as_slice())
}

/// The messages of these moves get their numbers: no sequence has them while they move, and then each has again what it
/// had. It answers where each ended.
fn move_marked<F: Files>(
    alloc: Global,
    hand: &mut Hand,
    files: &mut F,
    opened: &mut Opened,
    takes: &[MsgNum],
    moves: &[Move],
) -> Result<List<MsgNum>, PlanFault>
    ensures plan { Follows hand.old.run plan_cause
        (marked_moved hand.old.run (mail_place hand.old) opened.old takes.now moves.now)
        (by_hand hand.old.kept (F.state files.old)) (by_hand hand.new.kept (F.state files.new)) result }
    ensures left { IfOk result (λ ends. opened.new.sequences ≡ gone_along moves.now ends opened.old.sequences) }
    ensures same { (hand.new.run ≡ hand.old.run) × (hand.new.mail ≡ hand.old.mail) }
{
    let top = opened.highest();
    let marks = kept_marks(alloc, opened.sequences())?;
    withdraw(alloc, hand, files, opened, takes)?;
    let ends = arrange(alloc, hand.run(), files, opened.place(), takes, moves, top)?;
    let pairs = pairs(alloc, moves, ends.as_slice())?;
    restore(alloc, hand, files, opened, marks, pairs)?;
    Ok(ends)
}

/// The same, where there are moves. The first numbers are those of the messages that move, in the order in which they
/// are taken.
pub fn move_all<F: Files>(
    alloc: Global,
    hand: &mut Hand,
    files: &mut F,
    opened: &mut Opened,
    takes: &[MsgNum],
    moves: &[Move],
) -> Result<List<MsgNum>, PlanFault>
    ensures plan { Follows hand.old.run plan_cause
        (moved_if hand.old.run (mail_place hand.old) opened.old takes.now moves.now)
        (by_hand hand.old.kept (F.state files.old)) (by_hand hand.new.kept (F.state files.new)) result }
    ensures left { IfOk result (λ ends. opened.new.sequences ≡ sequences_after moves.now ends opened.old.sequences) }
    ensures same { (hand.new.run ≡ hand.old.run) × (hand.new.mail ≡ hand.old.mail) }
{
    if moves.is_empty() {
        Ok(List::new(alloc))
    } else {
        move_marked(alloc, hand, files, opened, takes, moves)
    }
}

/// The messages of these moves change places with one another.
pub(crate) fn change_places<F: Files>(
    alloc: Global,
    hand: &mut Hand,
    files: &mut F,
    opened: &mut Opened,
    moves: &[Move],
) -> Result<List<MsgNum>, PlanFault>
    ensures plan { Follows hand.old.run plan_cause
        (places_changed hand.old.run (mail_place hand.old) opened.old moves.now)
        (by_hand hand.old.kept (F.state files.old)) (by_hand hand.new.kept (F.state files.new)) result }
    ensures same { (hand.new.run ≡ hand.old.run) × (hand.new.mail ≡ hand.old.mail) }
{
    let takes = moving(alloc, moves)?;
    move_all(alloc, hand, files, opened, takes.as_slice(), moves)
}
