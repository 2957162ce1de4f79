// Messages are taken in, one after another.
ghost use Rattle.std.specs.Prelude.{◌≡◌, ◌≤◌, IfOk};
ghost use Rattle.file_plans.specs.Follows.{Follows, by_out};
ghost use Rattle.step_plans.specs.CommandFaults.{command_cause};
ghost use Rattle.inc_plans.specs.Intake.{all_taken};
ghost use Rattle.inc_plans.specs.Targets.{told_by};

use crate::taking::take;
use crate::{Taken, Target};
use folder_files::Files;
use mh_base::{BytesList, Sink};
use std::alloc::Global;
use step_plans::{CommandFault, Hand};

/// Messages are taken in after others.
pub(crate) fn take_all<F: Files, O: Sink>(
    alloc: Global,
    hand: &mut Hand,
    files: &mut F,
    out: &mut O,
    target: Target,
    first: Taken,
    messages: BytesList,
) -> Result<Taken, CommandFault>
    requires { first.highest ≤ 999999 }
    ensures plan { Follows hand.old.run command_cause
        (all_taken hand.old.run target.entry.folder.now target.entry.place.now (told_by target.entry) first messages)
        (by_out hand.old.kept (F.state files.old) (O.state out.old))
        (by_out hand.new.kept (F.state files.new) (O.state out.new)) result }
    ensures same { (hand.new.run ≡ hand.old.run) × (hand.new.mail ≡ hand.old.mail) }
    ensures range { IfOk result (λ taken. taken.highest ≤ 999999) }
{
    let mut taken = first;
    for mut message in messages.into_vec() {
        let number = take(
            alloc,
            hand,
            files,
            out,
            target,
            taken.numbers.as_slice(),
            taken.highest,
            &mut message,
        )?;
        taken.numbers.push(number)?;
        taken.highest = number.get();
    }
    Ok(taken)
}
