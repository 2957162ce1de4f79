// Messages get other numbers, and their marks go with them.
ghost use Rattle.std.specs.Prelude.{◌≡◌, IfOk};
ghost use Rattle.file_plans.specs.Follows.{Follows, by_hand};
ghost use Rattle.message_places.specs.Places.{froms};
ghost use Rattle.step_plans.specs.Hands.{mail_place};
ghost use Rattle.step_plans.specs.PlanFaults.{plan_cause};
ghost use Rattle.sortm_plans.specs.Moving.{sequences_after};
ghost use Rattle.pack_plans.specs.Pack.{renumbered};

use folder_files::Files;
use message_places::Move;
use mh_base::{List, MsgNum};
use opened_folders::Opened;
use sortm_command::move_all;
use std::alloc::{AllocError, Global};
use step_plans::{Hand, PlanFault};

/// The numbers that messages have before they move.
fn moving(alloc: Global, moves: &[Move]) -> Result<List<MsgNum>, AllocError>
    ensures { IfOk result (λ numbers. numbers ≡ froms moves.now) }
{
    let mut numbers = List::new(alloc);
    for one in moves {
        numbers.push(one.from)?;
    }
    Ok(numbers)
}

/// The messages of these moves get their numbers. It answers where each ended.
pub(crate) fn renumber<F: Files>(
    alloc: Global,
    hand: &mut Hand,
    files: &mut F,
    opened: &mut Opened,
    moves: &[Move],
) -> Result<List<MsgNum>, PlanFault>
    ensures plan { Follows hand.old.run plan_cause (renumbered hand.old.run (mail_place hand.old) opened.old moves.now)
        (by_hand hand.old.kept (F.state files.old)) (by_hand hand.new.kept (F.state files.new)) result }
    ensures left { IfOk result (λ ends. opened.new.sequences ≡ sequences_after moves.now ends opened.old.sequences) }
    ensures same { (hand.new.run ≡ hand.old.run) × (hand.new.mail ≡ hand.old.mail) }
{
    let takes = moving(alloc, moves)?;
    move_all(alloc, hand, files, opened, takes.as_slice(), moves)
}
