// Messages leave the source for the destinations, or are copied there.
ghost use Rattle.std.specs.Prelude.{◌≡◌};
ghost use Rattle.mh_sequences.specs.Runs.{numbers_of};
ghost use Rattle.file_plans.specs.Plan.{Hand as Kept, lifted};
ghost use Rattle.file_plans.specs.Follows.{Follows, by_hand};
ghost use Rattle.step_plans.specs.CommandFaults.{command_cause};
ghost use Rattle.step_plans.specs.Hands.{mail_place};
ghost use Rattle.step_plans.specs.Locking.{lock_name};
ghost use Rattle.step_plans.specs.Replacing.{synced};
ghost use Rattle.sequence_commits.specs.Committing.{changed_sequences};
ghost use Rattle.command_stages.specs.Endings.{of_plan};
ghost use Rattle.message_moves.specs.Refiling.{messages_refiled};
ghost use Rattle.refile_plans.specs.Refile.{messages_left, messages_stay, moved_by};
ghost use Rattle.refile_plans.specs.Rmm.{withdrawn};

use crate::RefileJob;
use crate::removing::withdrawal;
use command_stages::{fault_in, numbers};
use folder_files::{Files, Place};
use message_moves::{DestinationList, Origin, copy_messages, refile_messages};
use mh_base::{Duplicate, Entry, FolderName, entry_name};
use mh_sequences::NumSet;
use opened_folders::{Opened, commit_marks};
use std::alloc::Global;
use step_plans::{CommandFault, Hand, sync};

/// The source is made safe.
fn sync_source<F: Files>(
    alloc: Global,
    run: u128,
    files: &mut F,
    source: &FolderName,
    place: &Place,
) -> Result<(), CommandFault>
    ensures { (h : Kept)
        → Follows run command_cause (lifted (of_plan source.now) (synced place.now lock_name))
        (by_hand h (F.state files.old)) (by_hand h (F.state files.new)) result }
{
    let folder = source.duplicate(alloc)?;
    let lock = entry_name(alloc, &Entry::LockFile)?;
    match sync(alloc, run, files, place, &lock) {
        Ok(()) => Ok(()),
        Err(fault) => Err(fault_in(folder, fault)),
    }
}

/// These messages leave its sequences, which are committed.
fn withdraw<F: Files>(
    alloc: Global,
    hand: &mut Hand,
    files: &mut F,
    source: &FolderName,
    opened: &mut Opened,
    chosen: NumSet,
) -> Result<(), CommandFault>
    ensures plan { Follows hand.old.run command_cause
        (lifted (of_plan source.now)
        (changed_sequences hand.old.run opened.old.place
        (mail_place hand.old) opened.old.folder opened.old.sequences
        (withdrawn (numbers_of chosen.runs) opened.old.sequences))) (by_hand hand.old.kept (F.state files.old))
        (by_hand hand.new.kept (F.state files.new)) result }
    ensures same { (hand.new.run ≡ hand.old.run) × (hand.new.mail ≡ hand.old.mail) }
    ensures place { opened.new.place ≡ opened.old.place }
{
    let folder = source.duplicate(alloc)?;
    let marks = withdrawal(alloc, chosen)?;
    match commit_marks(alloc, hand, files, opened, marks.as_slice()) {
        Ok(()) => Ok(()),
        Err(fault) => Err(fault_in(folder, fault)),
    }
}

/// The messages go to the destinations.
fn refile_chosen<F: Files>(
    alloc: Global,
    hand: &mut Hand,
    files: &mut F,
    origin: Origin,
    chosen: &NumSet,
    to: DestinationList,
) -> Result<DestinationList, CommandFault>
    ensures plan { Follows hand.old.run command_cause
        (messages_refiled hand.old.run origin.entry.folder.now origin.entry.place.now (numbers_of chosen.now.runs) to)
        (by_hand hand.old.kept (F.state files.old)) (by_hand hand.new.kept (F.state files.new)) result }
    ensures same { (hand.new.run ≡ hand.old.run) × (hand.new.mail ≡ hand.old.mail) }
{
    let numbers = numbers(alloc, chosen)?;
    refile_messages(alloc, hand, files, origin, numbers.as_slice(), to)
}

/// The messages go to the destinations, the source is made safe, and then they leave its sequences.
fn leave<F: Files>(
    alloc: Global,
    hand: &mut Hand,
    files: &mut F,
    job: &RefileJob,
    opened: &mut Opened,
    chosen: NumSet,
    to: DestinationList,
) -> Result<(), CommandFault>
    ensures plan { Follows hand.old.run command_cause
        (messages_left hand.old.run hand.old.mail job.now opened.old to (numbers_of chosen.runs))
        (by_hand hand.old.kept (F.state files.old)) (by_hand hand.new.kept (F.state files.new)) result }
    ensures same { (hand.new.run ≡ hand.old.run) × (hand.new.mail ≡ hand.old.mail) }
    ensures place { opened.new.place ≡ opened.old.place }
{
    let origin = Origin {
        folder: &job.source,
        place: opened.place(),
    };
    let _ = refile_chosen(alloc, hand, files, origin, &chosen, to)?;
    sync_source(alloc, hand.run(), files, &job.source, opened.place())?;
    withdraw(alloc, hand, files, &job.source, opened, chosen)
}

/// The messages are copied to the destinations, and nothing of the source changes.
fn stay<F: Files>(
    alloc: Global,
    hand: &mut Hand,
    files: &mut F,
    job: &RefileJob,
    opened: &Opened,
    chosen: &NumSet,
    to: DestinationList,
) -> Result<(), CommandFault>
    ensures plan { Follows hand.old.run command_cause
        (messages_stay hand.old.run job.now opened.now to (numbers_of chosen.now.runs))
        (by_hand hand.old.kept (F.state files.old)) (by_hand hand.new.kept (F.state files.new)) result }
    ensures same { (hand.new.run ≡ hand.old.run) × (hand.new.mail ≡ hand.old.mail) }
{
    let numbers = numbers(alloc, chosen)?;
    let origin = Origin {
        folder: &job.source,
        place: opened.place(),
    };
    let _ = copy_messages(alloc, hand, files, origin, numbers.as_slice(), to)?;
    Ok(())
}

/// The messages leave the source for the destinations, or are copied there.
pub(crate) fn move_messages<F: Files>(
    alloc: Global,
    hand: &mut Hand,
    files: &mut F,
    job: &RefileJob,
    opened: &mut Opened,
    chosen: NumSet,
    to: DestinationList,
) -> Result<(), CommandFault>
    ensures plan { Follows hand.old.run command_cause
        (moved_by job.now.link hand.old.run hand.old.mail job.now opened.old to (numbers_of chosen.runs))
        (by_hand hand.old.kept (F.state files.old)) (by_hand hand.new.kept (F.state files.new)) result }
    ensures same { (hand.new.run ≡ hand.old.run) × (hand.new.mail ≡ hand.old.mail) }
    ensures place { opened.new.place ≡ opened.old.place }
{
    if job.link {
        stay(alloc, hand, files, job, opened, &chosen, to)
    } else {
        leave(alloc, hand, files, job, opened, chosen, to)
    }
}
