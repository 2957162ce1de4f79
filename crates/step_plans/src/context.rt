// A commit of the context.
ghost use Rattle.std.specs.Prelude.{◌≡◌, ℕ, Ok, IfOk};
ghost use Rattle.file_plans.specs.Plan.{Hand as KeptValue};
ghost use Rattle.file_plans.specs.Follows.{State, Follows, by_hand};
ghost use Rattle.step_plans.specs.ContextCommit.{
  AreChanges,
  context_name,
  entries_by,
  context_read,
  context_replaced,
  committed,
  commit_context as commit_context_plan,
};
ghost use Rattle.step_plans.specs.ContextCommitted.{CommitIsCaused, CommitsAloneIfTold};
ghost use Rattle.step_plans.specs.ContextPledge.{context_pledge};
ghost use Rattle.step_plans.specs.Hands.{mail_place};
ghost use Rattle.step_plans.specs.PlanFaults.{plan_cause};
ghost use Rattle.step_plans.specs.Promises.{Promises};

use crate::change::{change_all, is_settled};
use crate::clearing::clear_temps;
use crate::keeping::{Kept, know};
use crate::locking::{let_go, lock};
use crate::replacing::replace;
use crate::{ChangeEntry, ChangeEntryList, Hand, PlanFault};
use file_plans::{Reading, ask_make_folder, ask_read};
use folder_files::{Files, Place};
use mh_base::{Bytes, Duplicate, Name};
use mh_profile::Entries;
use std::alloc::{AllocError, Global};

/// The greatest text that is read or written, in bytes.
const LIMIT: u64 = 67_108_864;

/// How often the mail directory's lock is tried.
const TRIES: u64 = 64;

fn context_file(alloc: Global) -> Result<Name, AllocError>
    ensures { IfOk result (λ name. name ≡ context_name) }
{
    let text = Bytes::from_slice(alloc, b"context")?;
    Ok(Name::new(text).unwrap())
}

fn entries_from(alloc: Global, reading: Reading) -> Result<Entries, PlanFault>
    ensures { (run : ℕ) (x : State) → Follows run plan_cause (entries_by reading) x x result }
{
    match reading {
        Reading::Content(bytes) => Ok(Entries::read(alloc, bytes.as_slice())?),
        Reading::Long(length) => Err(PlanFault::TooLarge(length)),
        Reading::Gone => Ok(Entries::new(alloc)),
    }
}

/// The entries of a mail directory's context; none where there is no context.
pub fn read_context<F: Files>(
    alloc: Global,
    run: u128,
    files: &mut F,
    place: &Place,
) -> Result<Entries, PlanFault>
    ensures { (h : KeptValue)
        → Follows run plan_cause (context_read place.now) (by_hand h (F.state files.old))
        (by_hand h (F.state files.new)) result }
{
    let name = context_file(alloc)?;
    let reading = ask_read(alloc, run, files, place, &name, LIMIT)?;
    entries_from(alloc, reading)
}

/// The text takes the context's place, where it is not too long.
fn replace_context<F: Files>(
    alloc: Global,
    run: u128,
    kept: &mut Kept,
    files: &mut F,
    place: &Place,
    text: &mut Bytes,
) -> Result<(), PlanFault>
    ensures { Follows run plan_cause (context_replaced run place.now text.old) (by_hand kept.old (F.state files.old))
        (by_hand kept.new (F.state files.new)) result }
{
    let length = text.len() as u64;
    if LIMIT < length {
        return Err(PlanFault::TooLarge(length));
    }
    let name = context_file(alloc)?;
    replace(alloc, run, kept, files, place, &name, text)
}

/// Under its lock, a mail directory's context becomes what the changes make of it.
fn commit<F: Files>(
    alloc: Global,
    run: u128,
    kept: &mut Kept,
    files: &mut F,
    place: &Place,
    changes: &[ChangeEntry],
) -> Result<(), PlanFault>
    requires { AreChanges changes.now }
    ensures { Follows run plan_cause (committed run place.now changes.now) (by_hand kept.old (F.state files.old))
        (by_hand kept.new (F.state files.new)) result }
{
    let _ = ask_make_folder(alloc, run, files, place)?;
    lock(alloc, run, files, place, TRIES)?;
    clear_temps(alloc, run, files, place)?;
    let mut entries = read_context(alloc, run, files, place)?;
    change_all(alloc, &mut entries, changes)?;
    let mut text = entries.print(alloc)?;
    replace_context(alloc, run, kept, files, place, &mut text)?;
    let_go(alloc, run, files, place)?;
    know(kept, entries)
}

fn commit_at<F: Files>(
    alloc: Global,
    run: u128,
    kept: &mut Kept,
    files: &mut F,
    place: &Place,
    changes: &[ChangeEntry],
) -> Result<(), PlanFault>
    requires { AreChanges changes.now }
    ensures { Follows run plan_cause (commit_context_plan run place.now changes.now)
        (by_hand kept.old (F.state files.old)) (by_hand kept.new (F.state files.new)) result }
{
    let settled = is_settled(changes, kept)?;
    if settled {
        Ok(())
    } else {
        commit(alloc, run, kept, files, place, changes)
    }
}

/// Makes these changes in the context of the run's mail directory, under its lock; no step where the entries that
/// the run last read or wrote say so already.
pub fn commit_context<F: Files>(
    alloc: Global,
    hand: &mut Hand,
    files: &mut F,
    changes: &ChangeEntryList,
) -> Result<(), PlanFault>
    requires { AreChanges changes.now }
    ensures plan { Follows hand.old.run plan_cause (commit_context_plan hand.old.run (mail_place hand.old) changes.now)
        (by_hand hand.old.kept (F.state files.old)) (by_hand hand.new.kept (F.state files.new)) result }
    ensures steps { Promises (context_pledge hand.old.run hand.old.mail changes.now)
        (by_hand hand.old.kept (F.state files.old)) (by_hand hand.new.kept (F.state files.new)) }
    ensures caused { CommitIsCaused hand.old.run (mail_place hand.old) changes.now
        (by_hand hand.old.kept (F.state files.old)) (by_hand hand.new.kept (F.state files.new)) result }
    ensures alone { result ≡ Ok tt
        → CommitsAloneIfTold hand.old.run hand.old.mail changes.now hand.old.kept (F.state files.old).story
        (F.state files.new).story }
    ensures same { (hand.new.run ≡ hand.old.run) × (hand.new.mail ≡ hand.old.mail) }
{
    let run = hand.run();
    let place = Place::Mail(hand.mail.duplicate(alloc)?);
    commit_at(
        alloc,
        run,
        &mut hand.kept,
        files,
        &place,
        changes.as_slice(),
    )
}
