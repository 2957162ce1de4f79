// The drop is cut, at last.
ghost use Rattle.std.specs.Prelude.{◌≡◌, ℕ};
ghost use Rattle.file_plans.specs.Plan.{Hand as Kept};
ghost use Rattle.file_plans.specs.Follows.{State, Follows, by_hand};
ghost use Rattle.step_plans.specs.CommandFaults.{command_cause};
ghost use Rattle.inc_plans.specs.Inc.{cut_by, cut_if, drop_ended};

use file_plans::{DropCut, ask_cut_drop};
use folder_files::{FilePath, Files, Refusal};
use std::alloc::Global;
use step_plans::CommandFault;

fn cut_end(cut: DropCut) -> Result<(), CommandFault>
    ensures { (run : ℕ) (x : State) → Follows run command_cause (cut_by cut) x x result }
{
    match cut {
        DropCut::Done | DropCut::Gone => Ok(()),
        DropCut::Grown => Err(CommandFault::Refused(Refusal::DropGrown)),
    }
}

fn cut_at<F: Files>(
    alloc: Global,
    run: u128,
    files: &mut F,
    path: &FilePath,
    length: u64,
) -> Result<(), CommandFault>
    ensures { (h : Kept)
        → Follows run command_cause (drop_ended path.now length) (by_hand h (F.state files.old))
        (by_hand h (F.state files.new)) result }
{
    let cut = ask_cut_drop(alloc, run, files, path, length)?;
    cut_end(cut)
}

/// Cuts a drop of this length in bytes to nothing, where it is to be cut. One that isn't there any more is left; one
/// that has another length is refused, for mail was delivered meanwhile.
pub fn cut_drop<F: Files>(
    alloc: Global,
    run: u128,
    files: &mut F,
    truncate: bool,
    path: &FilePath,
    length: u64,
) -> Result<(), CommandFault>
    ensures { (h : Kept)
        → Follows run command_cause (cut_if truncate path.now length) (by_hand h (F.state files.old))
        (by_hand h (F.state files.new)) result }
{
    if truncate {
        cut_at(alloc, run, files, path, length)
    } else {
        Ok(())
    }
}
