// What matches is found, and told.
ghost use Rattle.std.specs.Prelude.{◌≡◌, ℕ};
ghost use Rattle.folder_files.specs.Story.{FilesState};
ghost use Rattle.file_plans.specs.Plan.{Hand as Kept};
ghost use Rattle.file_plans.specs.Follows.{Follows, by_out};
ghost use Rattle.step_plans.specs.CommandFaults.{command_cause};
ghost use Rattle.pick_plans.specs.Pick.{found_told, some_found, unless_none as unless_none_plan};

use crate::PickJob;
use crate::saying::say_if;
use crate::testing::test_all;
use command_stages::make_current;
use folder_files::{Files, Place, Refusal};
use mh_base::{List, MsgNum, Sink};
use std::alloc::Global;
use step_plans::{CommandFault, Hand};

/// What was found, where that is any message; else it is refused.
fn unless_none<O: Sink>(
    alloc: Global,
    out: &mut O,
    list: bool,
    found: List<MsgNum>,
) -> Result<List<MsgNum>, CommandFault>
    ensures { (run : ℕ) (h : Kept) (f : FilesState)
        → Follows run command_cause (unless_none_plan list found) (by_out h f (O.state out.old))
        (by_out h f (O.state out.new)) result }
{
    if found.is_empty() {
        say_if(alloc, out, list, found.as_slice())?;
        Err(CommandFault::Refused(Refusal::NoMatch))
    } else {
        Ok(found)
    }
}

/// Reads the messages of these numbers, and gives those that match; where none does, that is refused.
pub(crate) fn find<F: Files, O: Sink>(
    alloc: Global,
    run: u128,
    files: &mut F,
    out: &mut O,
    place: &Place,
    job: &PickJob,
    numbers: &[MsgNum],
) -> Result<List<MsgNum>, CommandFault>
    ensures { (h : Kept)
        → Follows run command_cause (some_found place.now job.now numbers.now)
        (by_out h (F.state files.old) (O.state out.old)) (by_out h (F.state files.new) (O.state out.new)) result }
{
    let found = test_all(alloc, run, files, place, &job.expr, numbers)?;
    unless_none(alloc, out, job.list, found)
}

/// Writes their numbers, if they are listed, and makes the folder the current one.
pub(crate) fn tell<F: Files, O: Sink>(
    alloc: Global,
    hand: &mut Hand,
    files: &mut F,
    out: &mut O,
    job: &PickJob,
    found: &[MsgNum],
) -> Result<(), CommandFault>
    ensures plan { Follows hand.old.run command_cause (found_told hand.old.run hand.old.mail job.now found.now)
        (by_out hand.old.kept (F.state files.old) (O.state out.old))
        (by_out hand.new.kept (F.state files.new) (O.state out.new)) result }
    ensures run { hand.new.run ≡ hand.old.run }
    ensures mail { hand.new.mail ≡ hand.old.mail }
{
    say_if(alloc, out, job.list, found)?;
    make_current(alloc, hand, files, &job.folder)
}
