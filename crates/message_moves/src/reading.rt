// The bytes of a message.
ghost use Rattle.std.specs.Prelude.{ℕ};
ghost use Rattle.file_plans.specs.Plan.{Hand};
ghost use Rattle.file_plans.specs.Follows.{Follows, State, by_hand};
ghost use Rattle.step_plans.specs.PlanFaults.{plan_cause};
ghost use Rattle.message_moves.specs.Moving.{content_by, content_read};

use file_plans::{Reading, ask_read};
use folder_files::{Files, Place};
use mh_base::{Bytes, Name};
use std::alloc::Global;
use step_plans::{PlanFault, meddled};

/// The greatest message that is read, in bytes.
const LIMIT: u64 = 67_108_864;

fn content_from(
    alloc: Global,
    place: &Place,
    name: &Name,
    reading: Reading,
) -> Result<Bytes, PlanFault>
    ensures { (run : ℕ) (x : State) → Follows run plan_cause (content_by place.now name.now reading) x x result }
{
    match reading {
        Reading::Content(bytes) => Ok(bytes),
        Reading::Long(length) => Err(PlanFault::TooLarge(length)),
        Reading::Gone => Err(meddled(alloc, place, name)?),
    }
}

/// The bytes of the message of this name, which is a held name or a number. One that is too long is refused, and where
/// nothing stands under the name it was changed meanwhile.
pub fn content<F: Files>(
    alloc: Global,
    run: u128,
    files: &mut F,
    place: &Place,
    name: &Name,
) -> Result<Bytes, PlanFault>
    ensures { (h : Hand)
        → Follows run plan_cause (content_read place.now name.now) (by_hand h (F.state files.old))
        (by_hand h (F.state files.new)) result }
{
    let reading = ask_read(alloc, run, files, place, name, LIMIT)?;
    content_from(alloc, place, name, reading)
}
