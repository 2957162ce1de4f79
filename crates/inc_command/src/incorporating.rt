// `inc`: new mail is taken in.
ghost use Rattle.std.specs.Prelude.{◌≡◌, ◌≤◌};
ghost use Rattle.file_plans.specs.Plan.{Hand as Kept};
ghost use Rattle.file_plans.specs.Follows.{Follows, by_hand, by_out};
ghost use Rattle.step_plans.specs.CommandFaults.{command_cause};
ghost use Rattle.inc_plans.specs.Asked.{asked};
ghost use Rattle.inc_plans.specs.IncPledge.{PromisesSteps};
ghost use Rattle.inc_plans.specs.Inc.{are_some, inc as inc_plan, new_marked, opened_incorporated, room_counted, told_taken, top_of};

use crate::counting::count_drop;
use crate::cut::cut_drop;
use crate::drop::take_drop;
use crate::heading::tell_heading;
use crate::marks::new_marks;
use crate::room::ask_room;
use crate::{DropSize, IncJob, Taken, Target};
use command_stages::{fault_in, folder_place, make_current};
use folder_files::Files;
use mh_base::{Duplicate, MsgNum, Sink};
use mh_sequences::NumSet;
use opened_folders::{Opened, commit_marks, end, open_made};
use std::alloc::Global;
use step_plans::{CommandFault, Hand};

/// The highest of these numbers, or 0.
fn highest(listing: &NumSet) -> u32
    ensures value { result ≡ top_of listing.now.runs }
    ensures range { result ≤ 999999 }
{
    let runs = listing.runs();
    if runs == 0 {
        return 0;
    }
    match listing.run_at(runs - 1) {
        Some(run) => run.to.get(),
        None => 0,
    }
}

/// The drop is counted, and the folder has room for its messages.
fn count_with_room<F: Files>(
    alloc: Global,
    run: u128,
    files: &mut F,
    job: &IncJob,
    highest: u32,
) -> Result<DropSize, CommandFault>
    requires { highest ≤ 999999 }
    ensures { (h : Kept)
        → Follows run command_cause (room_counted job.now.folder job.now.drop highest) (by_hand h (F.state files.old))
        (by_hand h (F.state files.new)) result }
{
    let size = count_drop(alloc, run, files, &job.drop)?;
    ask_room(alloc, &job.folder, highest, size.messages)?;
    Ok(size)
}

/// Whether new messages come to some unseen sequence.
fn has_unseen(job: &IncJob) -> bool
    ensures { result ≡ are_some job.now.unseen }
{
    !job.unseen.is_empty()
}

/// The heading is written, and the drop's messages are taken in.
fn take_all<F: Files, O: Sink>(
    alloc: Global,
    hand: &mut Hand,
    files: &mut F,
    out: &mut O,
    job: &IncJob,
    opened: &Opened,
    size: DropSize,
) -> Result<Taken, CommandFault>
    ensures plan { Follows hand.old.run command_cause (told_taken hand.old.run (asked job.now) opened.now size)
        (by_out hand.old.kept (F.state files.old) (O.state out.old))
        (by_out hand.new.kept (F.state files.new) (O.state out.new)) result }
    ensures same { (hand.new.run ≡ hand.old.run) × (hand.new.mail ≡ hand.old.mail) }
{
    let target = Target {
        folder: &job.folder,
        place: opened.place(),
        silent: job.silent,
        change_cur: job.change_cur,
        unseen: has_unseen(job),
        sequences: opened.sequences(),
        look: &job.look,
    };
    let highest = highest(opened.listing());
    tell_heading(alloc, out, job.silent, &job.folder)?;
    take_drop(alloc, hand, files, out, target, &job.drop, size, highest)
}

/// The new messages are marked, and the folder becomes the current one.
fn mark_new<F: Files>(
    alloc: Global,
    hand: &mut Hand,
    files: &mut F,
    job: &IncJob,
    mut opened: Opened,
    numbers: &[MsgNum],
) -> Result<(), CommandFault>
    ensures plan { Follows hand.old.run command_cause
        (new_marked hand.old.run hand.old.mail (asked job.now) opened numbers.now)
        (by_hand hand.old.kept (F.state files.old)) (by_hand hand.new.kept (F.state files.new)) result }
    ensures same { (hand.new.run ≡ hand.old.run) × (hand.new.mail ≡ hand.old.mail) }
{
    let marks = new_marks(alloc, job, numbers)?;
    let folder = job.folder.duplicate(alloc)?;
    match commit_marks(alloc, hand, files, &mut opened, marks.as_slice()) {
        Ok(()) => make_current(alloc, hand, files, &job.folder),
        Err(fault) => Err(fault_in(folder, fault)),
    }
}

/// The work on a folder that was begun.
fn incorporate<F: Files, O: Sink>(
    alloc: Global,
    hand: &mut Hand,
    files: &mut F,
    out: &mut O,
    job: &IncJob,
    opened: Opened,
) -> Result<(), CommandFault>
    ensures plan { Follows hand.old.run command_cause
        (opened_incorporated hand.old.run hand.old.mail (asked job.now) opened)
        (by_out hand.old.kept (F.state files.old) (O.state out.old))
        (by_out hand.new.kept (F.state files.new) (O.state out.new)) result }
    ensures same { (hand.new.run ≡ hand.old.run) × (hand.new.mail ≡ hand.old.mail) }
{
    let highest = highest(opened.listing());
    let size = count_with_room(alloc, hand.run(), files, job, highest)?;
    let taken = take_all(alloc, hand, files, out, job, &opened, size)?;
    mark_new(alloc, hand, files, job, opened, taken.numbers.as_slice())?;
    cut_drop(
        alloc,
        hand.run(),
        files,
        job.truncate,
        &job.drop,
        size.length,
    )
}

/// Takes the drop's messages into the folder, which is made where it is missing, and tells of each once it is stored;
/// then marks them, makes the folder the current one, and cuts the drop.
pub fn inc<F: Files, O: Sink>(
    alloc: Global,
    hand: &mut Hand,
    files: &mut F,
    out: &mut O,
    job: &IncJob,
) -> Result<(), CommandFault>
    ensures plan { Follows hand.old.run command_cause (inc_plan hand.old.run hand.old.mail (asked job.now))
        (by_out hand.old.kept (F.state files.old) (O.state out.old))
        (by_out hand.new.kept (F.state files.new) (O.state out.new)) result }
    ensures steps { PromisesSteps hand.old.run hand.old.mail (asked job.now)
        (by_out hand.old.kept (F.state files.old) (O.state out.old))
        (by_out hand.new.kept (F.state files.new) (O.state out.new)) }
    ensures run { hand.new.run ≡ hand.old.run }
    ensures mail { hand.new.mail ≡ hand.old.mail }
{
    let place = folder_place(alloc, hand, &job.folder)?;
    let opened = open_made(alloc, hand, files, &job.folder)?;
    let done = incorporate(alloc, hand, files, out, job, opened);
    end(alloc, hand.run(), files, &place, done)
}
