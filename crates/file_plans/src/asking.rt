// Steps asked for, a function for each kind.
ghost use Rattle.std.specs.Prelude.{◌≡◌, ◌≢◌, ◌≤◌, ℕ, List, IfOk, OnOk};
ghost use Rattle.folder_files.specs.Rows.{IsAnswerOf};
ghost use Rattle.file_plans.specs.Plan.{Hand, ask as ask_plan, attempt as attempt_plan};
ghost use Rattle.file_plans.specs.Follows.{Follows, by_hand};
ghost use Rattle.file_plans.specs.Asking.{
  stop_cause,
  list as list_plan,
  read as read_plan,
  make_folder as make_folder_plan,
  create as create_plan,
  sync_file as sync_file_plan,
  sync_folder as sync_folder_plan,
  link as link_plan,
  rename as rename_plan,
  unlink as unlink_plan,
  lock as lock_plan,
  read_file as read_file_plan,
  read_drop as read_drop_plan,
  cut_drop as cut_drop_plan,
  unlock as unlock_plan,
  attempt_unlock as attempt_unlock_plan,
};

use crate::answers::{
    drop_cut_from, drop_piece_from, entered_from, folder_made_from, listing_from, locking_from,
    reading_from, touched_from,
};
use crate::{DropCut, DropPiece, Entered, FolderMade, Listing, Locking, Reading, Touched};
use folder_files::{Answer, FilePath, Files, Place, Step};
use mh_base::{Bytes, Duplicate, Name};
use std::alloc::{AllocError, Global};
use std::mem;
use thiserror::Error;

/// Why a step has no answer of its row.
#[derive(Debug, PartialEq, Eq, Drop, Error)]
pub enum Stop {
    /// The files failed; their count of faults rose.
    #[error("files failed")]
    Failed,
    #[error("out of memory")]
    Memory,
}

impl From<AllocError> for Stop {
    ghost use Rattle.file_plans.specs.declared.asking.Stop.TheVariants.{Memory};

    ghost from_gives = { λ _ e. e ≡ Memory };

    fn from(_: AllocError) -> Self {
        Stop::Memory
    }
}

fn ask_by<F: Files>(alloc: Global, run: u128, files: &mut F, step: &Step) -> Result<Answer, Stop>
    ensures plan { (h : Hand)
        → Follows run stop_cause (ask_plan step.now) (by_hand h (F.state files.old))
        (by_hand h (F.state files.new)) result }
    ensures row { IfOk result (λ a. IsAnswerOf step.now a) }
    ensures live { IfOk result (λ a. a ≢ Answer.Failed) }
{
    match files.act(alloc, run, step)? {
        Answer::Failed => Err(Stop::Failed),
        answer => Ok(answer),
    }
}

/// Asks for a step.
pub fn ask<F: Files>(alloc: Global, run: u128, files: &mut F, step: Step) -> Result<Answer, Stop>
    ensures plan { (h : Hand)
        → Follows run stop_cause (ask_plan step) (by_hand h (F.state files.old))
        (by_hand h (F.state files.new)) result }
    ensures row { IfOk result (λ a. IsAnswerOf step a) }
    ensures live { IfOk result (λ a. a ≢ Answer.Failed) }
{
    ask_by(alloc, run, files, &step)
}

fn attempt_by<F: Files>(
    alloc: Global,
    run: u128,
    files: &mut F,
    step: &Step,
) -> Result<Answer, Stop>
    ensures { (h : Hand)
        → Follows run stop_cause (attempt_plan step.now) (by_hand h (F.state files.old))
        (by_hand h (F.state files.new)) result }
{
    Ok(files.act(alloc, run, step)?)
}

/// Asks for a step after which the call goes on, also where it failed.
pub fn attempt<F: Files>(
    alloc: Global,
    run: u128,
    files: &mut F,
    step: Step,
) -> Result<Answer, Stop>
    ensures { (h : Hand)
        → Follows run stop_cause (attempt_plan step) (by_hand h (F.state files.old))
        (by_hand h (F.state files.new)) result }
{
    attempt_by(alloc, run, files, &step)
}

fn forget(_answer: Answer) {}

fn list_step(alloc: Global, place: &Place) -> Result<Step, AllocError>
    ensures { IfOk result (λ s. s ≡ Step.List place.now) }
{
    Ok(Step::List(place.duplicate(alloc)?))
}

fn read_step(alloc: Global, place: &Place, name: &Name, limit: u64) -> Result<Step, AllocError>
    ensures { IfOk result (λ s. s ≡ Step.Read place.now name.now limit) }
{
    Ok(Step::Read(place.duplicate(alloc)?, name.duplicate(alloc)?, limit))
}

fn make_folder_step(alloc: Global, place: &Place) -> Result<Step, AllocError>
    ensures { IfOk result (λ s. s ≡ Step.MakeFolder place.now) }
{
    Ok(Step::MakeFolder(place.duplicate(alloc)?))
}

/// The bytes go into the step.
fn create_step(
    alloc: Global,
    place: &Place,
    name: &Name,
    bytes: &mut Bytes,
) -> Result<Step, AllocError>
    ensures { IfOk result (λ s. s ≡ Step.Create place.now name.now bytes.old) }
{
    let place = place.duplicate(alloc)?;
    let name = name.duplicate(alloc)?;
    Ok(Step::Create(place, name, mem::replace(bytes, Bytes::new(alloc))))
}

/// The bytes come out of the step again.
fn give_back(step: Step, bytes: &mut Bytes)
    ensures { (p : Place) (n b : List ℕ) → step ≡ Step.Create p n b → bytes.new ≡ b }
{
    if let Step::Create(_, _, created) = step {
        *bytes = created;
    }
}

fn sync_file_step(alloc: Global, place: &Place, name: &Name) -> Result<Step, AllocError>
    ensures { IfOk result (λ s. s ≡ Step.SyncFile place.now name.now) }
{
    Ok(Step::SyncFile(place.duplicate(alloc)?, name.duplicate(alloc)?))
}

fn sync_folder_step(alloc: Global, place: &Place) -> Result<Step, AllocError>
    ensures { IfOk result (λ s. s ≡ Step.SyncFolder place.now) }
{
    Ok(Step::SyncFolder(place.duplicate(alloc)?))
}

fn link_step(alloc: Global, place: &Place, from: &Name, to: &Name) -> Result<Step, AllocError>
    ensures { IfOk result (λ s. s ≡ Step.Link place.now from.now to.now) }
{
    Ok(Step::Link(
        place.duplicate(alloc)?,
        from.duplicate(alloc)?,
        to.duplicate(alloc)?,
    ))
}

fn rename_step(alloc: Global, place: &Place, from: &Name, to: &Name) -> Result<Step, AllocError>
    ensures { IfOk result (λ s. s ≡ Step.Rename place.now from.now to.now) }
{
    Ok(Step::Rename(
        place.duplicate(alloc)?,
        from.duplicate(alloc)?,
        to.duplicate(alloc)?,
    ))
}

fn unlink_step(alloc: Global, place: &Place, name: &Name) -> Result<Step, AllocError>
    ensures { IfOk result (λ s. s ≡ Step.Unlink place.now name.now) }
{
    Ok(Step::Unlink(place.duplicate(alloc)?, name.duplicate(alloc)?))
}

fn lock_step(alloc: Global, place: &Place) -> Result<Step, AllocError>
    ensures { IfOk result (λ s. s ≡ Step.Lock place.now) }
{
    Ok(Step::Lock(place.duplicate(alloc)?))
}

fn read_file_step(alloc: Global, path: &FilePath, limit: u64) -> Result<Step, AllocError>
    ensures { IfOk result (λ s. s ≡ Step.ReadFile path.now limit) }
{
    Ok(Step::ReadFile(path.duplicate(alloc)?, limit))
}

fn read_drop_step(alloc: Global, path: &FilePath, from: u64, most: u64) -> Result<Step, AllocError>
    ensures { IfOk result (λ s. s ≡ Step.ReadDrop path.now from most) }
{
    Ok(Step::ReadDrop {
        path: path.duplicate(alloc)?,
        from,
        most,
    })
}

fn cut_drop_step(alloc: Global, path: &FilePath, length: u64) -> Result<Step, AllocError>
    ensures { IfOk result (λ s. s ≡ Step.CutDrop path.now length) }
{
    Ok(Step::CutDrop(path.duplicate(alloc)?, length))
}

/// The names of a directory.
pub fn ask_list<F: Files>(
    alloc: Global,
    run: u128,
    files: &mut F,
    place: &Place,
) -> Result<Listing, Stop>
    ensures { (h : Hand)
        → Follows run stop_cause (list_plan place.now) (by_hand h (F.state files.old))
        (by_hand h (F.state files.new)) result }
{
    let step = list_step(alloc, place)?;
    let answer = ask(alloc, run, files, step)?;
    Ok(listing_from(answer))
}

/// The bytes of a file in a directory.
pub fn ask_read<F: Files>(
    alloc: Global,
    run: u128,
    files: &mut F,
    place: &Place,
    name: &Name,
    limit: u64,
) -> Result<Reading, Stop>
    ensures { (h : Hand)
        → Follows run stop_cause (read_plan place.now name.now limit) (by_hand h (F.state files.old))
        (by_hand h (F.state files.new)) result }
{
    let step = read_step(alloc, place, name, limit)?;
    let answer = ask(alloc, run, files, step)?;
    Ok(reading_from(answer))
}

/// Makes a directory and its missing parents.
pub fn ask_make_folder<F: Files>(
    alloc: Global,
    run: u128,
    files: &mut F,
    place: &Place,
) -> Result<FolderMade, Stop>
    ensures { (h : Hand)
        → Follows run stop_cause (make_folder_plan place.now) (by_hand h (F.state files.old))
        (by_hand h (F.state files.new)) result }
{
    let step = make_folder_step(alloc, place)?;
    let answer = ask(alloc, run, files, step)?;
    Ok(folder_made_from(answer))
}

/// A name leads to a new file with these bytes, which stay with the caller.
pub fn ask_create<F: Files>(
    alloc: Global,
    run: u128,
    files: &mut F,
    place: &Place,
    name: &Name,
    bytes: &mut Bytes,
) -> Result<Entered, Stop>
    ensures plan { (h : Hand)
        → Follows run stop_cause (create_plan place.now name.now bytes.old) (by_hand h (F.state files.old))
        (by_hand h (F.state files.new)) result }
    ensures kept { OnOk result (bytes.new ≡ bytes.old) }
{
    let step = create_step(alloc, place, name, bytes)?;
    let answer = ask_by(alloc, run, files, &step)?;
    give_back(step, bytes);
    Ok(entered_from(answer))
}

/// A file outlasts a crash.
pub fn ask_sync_file<F: Files>(
    alloc: Global,
    run: u128,
    files: &mut F,
    place: &Place,
    name: &Name,
) -> Result<Touched, Stop>
    ensures { (h : Hand)
        → Follows run stop_cause (sync_file_plan place.now name.now) (by_hand h (F.state files.old))
        (by_hand h (F.state files.new)) result }
{
    let step = sync_file_step(alloc, place, name)?;
    let answer = ask(alloc, run, files, step)?;
    Ok(touched_from(answer))
}

/// The changes of a directory so far outlast a crash.
pub fn ask_sync_folder<F: Files>(
    alloc: Global,
    run: u128,
    files: &mut F,
    place: &Place,
) -> Result<Touched, Stop>
    ensures { (h : Hand)
        → Follows run stop_cause (sync_folder_plan place.now) (by_hand h (F.state files.old))
        (by_hand h (F.state files.new)) result }
{
    let step = sync_folder_step(alloc, place)?;
    let answer = ask(alloc, run, files, step)?;
    Ok(touched_from(answer))
}

/// A second name for a file.
pub fn ask_link<F: Files>(
    alloc: Global,
    run: u128,
    files: &mut F,
    place: &Place,
    from: &Name,
    to: &Name,
) -> Result<Entered, Stop>
    ensures { (h : Hand)
        → Follows run stop_cause (link_plan place.now from.now to.now) (by_hand h (F.state files.old))
        (by_hand h (F.state files.new)) result }
{
    let step = link_step(alloc, place, from, to)?;
    let answer = ask(alloc, run, files, step)?;
    Ok(entered_from(answer))
}

/// Another name for a file.
pub fn ask_rename<F: Files>(
    alloc: Global,
    run: u128,
    files: &mut F,
    place: &Place,
    from: &Name,
    to: &Name,
) -> Result<Touched, Stop>
    ensures { (h : Hand)
        → Follows run stop_cause (rename_plan place.now from.now to.now) (by_hand h (F.state files.old))
        (by_hand h (F.state files.new)) result }
{
    let step = rename_step(alloc, place, from, to)?;
    let answer = ask(alloc, run, files, step)?;
    Ok(touched_from(answer))
}

/// A name is gone.
pub fn ask_unlink<F: Files>(
    alloc: Global,
    run: u128,
    files: &mut F,
    place: &Place,
    name: &Name,
) -> Result<Touched, Stop>
    ensures { (h : Hand)
        → Follows run stop_cause (unlink_plan place.now name.now) (by_hand h (F.state files.old))
        (by_hand h (F.state files.new)) result }
{
    let step = unlink_step(alloc, place, name)?;
    let answer = ask(alloc, run, files, step)?;
    Ok(touched_from(answer))
}

/// This run holds the lock of a directory.
pub fn ask_lock<F: Files>(
    alloc: Global,
    run: u128,
    files: &mut F,
    place: &Place,
) -> Result<Locking, Stop>
    ensures { (h : Hand)
        → Follows run stop_cause (lock_plan place.now) (by_hand h (F.state files.old))
        (by_hand h (F.state files.new)) result }
{
    let step = lock_step(alloc, place)?;
    let answer = ask(alloc, run, files, step)?;
    Ok(locking_from(answer))
}

/// The bytes of an outside file.
pub fn ask_read_file<F: Files>(
    alloc: Global,
    run: u128,
    files: &mut F,
    path: &FilePath,
    limit: u64,
) -> Result<Reading, Stop>
    ensures { (h : Hand)
        → Follows run stop_cause (read_file_plan path.now limit) (by_hand h (F.state files.old))
        (by_hand h (F.state files.new)) result }
{
    let step = read_file_step(alloc, path, limit)?;
    let answer = ask(alloc, run, files, step)?;
    Ok(reading_from(answer))
}

/// A piece of an outside file.
pub fn ask_read_drop<F: Files>(
    alloc: Global,
    run: u128,
    files: &mut F,
    path: &FilePath,
    from: u64,
    most: u64,
) -> Result<DropPiece, Stop>
    ensures { (h : Hand)
        → Follows run stop_cause (read_drop_plan path.now from most) (by_hand h (F.state files.old))
        (by_hand h (F.state files.new)) result }
{
    let step = read_drop_step(alloc, path, from, most)?;
    let answer = ask(alloc, run, files, step)?;
    Ok(drop_piece_from(answer))
}

/// An outside file of this length is cut to nothing.
pub fn ask_cut_drop<F: Files>(
    alloc: Global,
    run: u128,
    files: &mut F,
    path: &FilePath,
    length: u64,
) -> Result<DropCut, Stop>
    ensures { (h : Hand)
        → Follows run stop_cause (cut_drop_plan path.now length) (by_hand h (F.state files.old))
        (by_hand h (F.state files.new)) result }
{
    let step = cut_drop_step(alloc, path, length)?;
    let answer = ask(alloc, run, files, step)?;
    Ok(drop_cut_from(answer))
}

/// The lock of a directory falls; where that fails the call ends. For a lock after which the call may change something.
pub fn ask_unlock<F: Files>(
    alloc: Global,
    run: u128,
    files: &mut F,
    place: &Place,
) -> Result<(), Stop>
    ensures { (h : Hand)
        → Follows run stop_cause (unlock_plan place.now) (by_hand h (F.state files.old))
        (by_hand h (F.state files.new)) result }
{
    let place = place.duplicate(alloc)?;
    let answer = ask(alloc, run, files, Step::Unlock(place))?;
    forget(answer);
    Ok(())
}

/// The lock of a directory falls; the call goes on, also where that fails. For the end of a refusal, which stands in
/// any case.
pub fn attempt_unlock<F: Files>(
    alloc: Global,
    run: u128,
    files: &mut F,
    place: &Place,
) -> Result<(), Stop>
    ensures { (h : Hand)
        → Follows run stop_cause (attempt_unlock_plan place.now) (by_hand h (F.state files.old))
        (by_hand h (F.state files.new)) result }
{
    let place = place.duplicate(alloc)?;
    let answer = attempt(alloc, run, files, Step::Unlock(place))?;
    forget(answer);
    Ok(())
}
