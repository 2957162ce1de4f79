// The write discipline: which steps a run may make after what it did.
ghost use Rattle.std.specs.Prelude.{◌↔◌, IsTrue, IfOk};
ghost use Rattle.folder_files.specs.Careful.{Kind, Keeps, IsLook, IsCareful};
ghost use Rattle.folder_files.specs.Histories.{own, past_of};
ghost use Rattle.step_discipline.specs.Seen.{seen_all};

use crate::cutting::may_cut;
use crate::deed::{DeedRef, own_deeds};
use crate::kinds::{may_create, may_link, may_rename, may_unlink};
use crate::ready::has_failed;
use folder_files::{History, Step};
use std::alloc::{AllocError, Global};

fn is_look(step: &Step) -> bool
    ensures { IsTrue result ↔ IsLook step.now }
{
    match step {
        Step::List(_)
        | Step::Read(_, _, _)
        | Step::SyncFile(_, _)
        | Step::SyncFolder(_)
        | Step::Lock(_)
        | Step::Unlock(_)
        | Step::ReadFile(_, _)
        | Step::ReadDrop { .. } => true,
        Step::MakeFolder(_)
        | Step::Create(_, _, _)
        | Step::Link(_, _, _)
        | Step::Rename(_, _, _)
        | Step::Unlink(_, _)
        | Step::CutDrop(_, _) => false,
    }
}

/// Whether a changing step is of one of the kinds that keep the discipline.
fn may_change(alloc: Global, own: &[DeedRef], run: u128, step: &Step) -> Result<bool, AllocError>
    ensures { IfOk result (λ b. IsTrue b ↔ ((kind : Kind) × Keeps run (seen_all own.now) kind step.now)) }
{
    match step {
        Step::MakeFolder(_) => Ok(true),
        Step::Create(place, temp, _) => Ok(may_create(own, run, place, temp)),
        Step::Link(place, from, to) => Ok(may_link(own, run, place, from, to)),
        Step::Rename(place, from, to) => Ok(may_rename(own, run, place, from, to)),
        Step::Unlink(place, name) => Ok(may_unlink(own, run, place, name)),
        Step::CutDrop(path, length) => may_cut(alloc, own, run, path, *length),
        _ => Ok(false),
    }
}

/// Whether the step is careful after what this run did in the history: whether it keeps the rules
/// of docs/DISK.md by which no message is lost. Its time grows with the square of the run's steps,
/// and faster where these read one held message many times: it is meant for tests and for files in
/// memory.
pub fn may_step(
    alloc: Global,
    history: &History,
    run: u128,
    step: &Step,
) -> Result<bool, AllocError>
    ensures { IfOk result (λ b. IsTrue b ↔ IsCareful run (own run (past_of history.now)) step.now) }
{
    if is_look(step) {
        return Ok(true);
    }
    let deeds = own_deeds(alloc, history, run)?;
    if has_failed(&deeds) {
        return Ok(false);
    }
    may_change(alloc, &deeds, run, step)
}
