// How a folder is begun.
ghost use Rattle.std.specs.Prelude.{◌≡◌, ℕ, IfOk};
ghost use Rattle.folder_files.specs.declared.place.Place.TheVariants.{Folder, Mail};
ghost use Rattle.file_plans.specs.Plan.{Hand as KeptValue, lifted};
ghost use Rattle.file_plans.specs.Follows.{State, Follows, by_hand};
ghost use Rattle.step_plans.specs.Hands.{mail_place};
ghost use Rattle.step_plans.specs.CommandFaults.{command_cause};
ghost use Rattle.step_plans.specs.PlanFaults.{plan_cause};
ghost use Rattle.command_stages.specs.Endings.{of_plan};
ghost use Rattle.opening_plans.specs.BegunAlone.{BeginsIfUnfaulted};
ghost use Rattle.opening_plans.specs.Opening.{begun, folder_locked, locked_begun, locked_by, mail_made, marks_cut, settled_read};

use crate::Opened;
use crate::existing::settled_numbers;
use crate::reading::read_marks;
use command_stages::fault_in;
use file_plans::{Locking, ask_lock, ask_make_folder};
use folder_files::{Files, Place};
use held_messages::{Settled, put_back};
use mh_base::{Bytes, Duplicate, Entry, FolderName, entry_name};
use mh_sequences::Sequences;
use sequence_commits::commit_cut;
use std::alloc::Global;
use step_plans::{CommandFault, Hand, PlanFault, clear, sync};

fn locked_from(alloc: Global, place: &Place, locking: Locking) -> Result<(), PlanFault>
    ensures { (run : ℕ) (x : State) → Follows run plan_cause (locked_by place.now locking) x x result }
{
    match locking {
        Locking::Done => Ok(()),
        Locking::Busy => Err(PlanFault::Locked(place.duplicate(alloc)?)),
        Locking::Gone => Err(PlanFault::Absent(place.duplicate(alloc)?)),
    }
}

/// The folder's lock, tried once.
fn lock_folder<F: Files>(
    alloc: Global,
    run: u128,
    files: &mut F,
    place: &Place,
) -> Result<(), PlanFault>
    ensures { (h : KeptValue)
        → Follows run plan_cause (folder_locked place.now) (by_hand h (F.state files.old))
        (by_hand h (F.state files.new)) result }
{
    let locking = ask_lock(alloc, run, files, place)?;
    locked_from(alloc, place, locking)
}

/// The mail directory is there, and what stands in it is safe.
fn make_mail<F: Files>(
    alloc: Global,
    run: u128,
    files: &mut F,
    mail: &Bytes,
) -> Result<(), PlanFault>
    ensures { (h : KeptValue)
        → Follows run plan_cause (mail_made (Mail mail.now)) (by_hand h (F.state files.old))
        (by_hand h (F.state files.new)) result }
{
    let place = Place::Mail(mail.duplicate(alloc)?);
    let name = entry_name(alloc, &Entry::LockFile)?;
    let _ = ask_make_folder(alloc, run, files, &place)?;
    sync(alloc, run, files, &place, &name)
}

/// The numbers that are absent leave the sequences.
fn cut_marks<F: Files>(
    alloc: Global,
    hand: &mut Hand,
    files: &mut F,
    place: Place,
    folder: &FolderName,
    settled: Settled,
    mut sequences: Sequences,
) -> Result<Opened, PlanFault>
    ensures plan { Follows hand.old.run plan_cause
        (marks_cut hand.old.run place (mail_place hand.old) folder.now settled sequences)
        (by_hand hand.old.kept (F.state files.old)) (by_hand hand.new.kept (F.state files.new)) result }
    ensures same { (hand.new.run ≡ hand.old.run) × (hand.new.mail ≡ hand.old.mail) }
{
    let listing = settled_numbers(alloc, hand.run(), &settled)?;
    commit_cut(alloc, hand, files, &place, folder, &mut sequences, &listing)?;
    Ok(Opened {
        place,
        folder: folder.duplicate(alloc)?,
        listing,
        sequences,
        ends: settled.into_ends(),
    })
}

/// What was settled is cleared of temporary names, and its sequences are read.
fn read_settled<F: Files>(
    alloc: Global,
    hand: &mut Hand,
    files: &mut F,
    place: Place,
    folder: &FolderName,
    settled: Settled,
) -> Result<Opened, PlanFault>
    ensures plan { Follows hand.old.run plan_cause
        (settled_read hand.old.run place (mail_place hand.old) folder.now settled)
        (by_hand hand.old.kept (F.state files.old)) (by_hand hand.new.kept (F.state files.new)) result }
    ensures same { (hand.new.run ≡ hand.old.run) × (hand.new.mail ≡ hand.old.mail) }
{
    clear(alloc, hand.run(), files, &place, settled.names())?;
    let sequences = read_marks(alloc, hand, files, &place, folder)?;
    cut_marks(alloc, hand, files, place, folder, settled, sequences)
}

fn begin_locked<F: Files>(
    alloc: Global,
    hand: &mut Hand,
    files: &mut F,
    place: Place,
    folder: &FolderName,
) -> Result<Opened, PlanFault>
    ensures plan { Follows hand.old.run plan_cause (locked_begun hand.old.run place (mail_place hand.old) folder.now)
        (by_hand hand.old.kept (F.state files.old)) (by_hand hand.new.kept (F.state files.new)) result }
    ensures same { (hand.new.run ≡ hand.old.run) × (hand.new.mail ≡ hand.old.mail) }
{
    make_mail(alloc, hand.run(), files, hand.mail())?;
    let settled = put_back(alloc, hand.run(), files, &place)?;
    read_settled(alloc, hand, files, place, folder, settled)
}

fn begin_at<F: Files>(
    alloc: Global,
    hand: &mut Hand,
    files: &mut F,
    place: Place,
    folder: &FolderName,
) -> Result<Opened, PlanFault>
    ensures plan { Follows hand.old.run plan_cause (begun hand.old.run place (mail_place hand.old) folder.now)
        (by_hand hand.old.kept (F.state files.old)) (by_hand hand.new.kept (F.state files.new)) result }
    ensures same { (hand.new.run ≡ hand.old.run) × (hand.new.mail ≡ hand.old.mail) }
{
    lock_folder(alloc, hand.run(), files, &place)?;
    begin_locked(alloc, hand, files, place, folder)
}

/// Begins a folder of the run's mail directory: takes its lock, puts back what other runs hold aside there, unlinks
/// temporary names, reads its sequences and the context, and commits the sequences where they name absent messages.
pub fn begin<F: Files>(
    alloc: Global,
    hand: &mut Hand,
    files: &mut F,
    folder: &FolderName,
) -> Result<Opened, PlanFault>
    ensures plan { Follows hand.old.run plan_cause
        (begun hand.old.run (Folder hand.old.mail folder.now) (mail_place hand.old) folder.now)
        (by_hand hand.old.kept (F.state files.old)) (by_hand hand.new.kept (F.state files.new)) result }
    ensures alone { IfOk result
        (λ o. BeginsIfUnfaulted hand.old.run hand.old.mail folder.now o (F.state files.old) (F.state files.new)) }
    ensures same { (hand.new.run ≡ hand.old.run) × (hand.new.mail ≡ hand.old.mail) }
{
    let place = Place::Folder(hand.mail().duplicate(alloc)?, folder.duplicate(alloc)?);
    begin_at(alloc, hand, files, place, folder)
}

/// Begins the folder of a command, whose fault it is where that can't be done.
pub fn open<F: Files>(
    alloc: Global,
    hand: &mut Hand,
    files: &mut F,
    folder: &FolderName,
) -> Result<Opened, CommandFault>
    ensures plan { Follows hand.old.run command_cause
        (lifted (of_plan folder.now)
        (begun hand.old.run (Folder hand.old.mail folder.now) (mail_place hand.old) folder.now))
        (by_hand hand.old.kept (F.state files.old)) (by_hand hand.new.kept (F.state files.new)) result }
    ensures run { hand.new.run ≡ hand.old.run }
    ensures mail { hand.new.mail ≡ hand.old.mail }
{
    let name = folder.duplicate(alloc)?;
    match begin(alloc, hand, files, folder) {
        Ok(opened) => Ok(opened),
        Err(fault) => Err(fault_in(name, fault)),
    }
}
