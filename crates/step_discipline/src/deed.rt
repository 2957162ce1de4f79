// The steps of one run with their answers.
ghost use Rattle.std.specs.Prelude.{◌≡◌, ◌≢◌, ◌↔◌, IsTrue, IfOk, MatchOption, List, ℕ, [], ◌∷◌};
ghost use Rattle.folder_files.specs.Deeds.{did};
ghost use Rattle.folder_files.specs.Histories.{own, past_of, deed_of};
ghost use Rattle.step_discipline.specs.Seen.{seen, seen_all};
ghost use Rattle.folder_files.specs.declared.step.Step.TheVariants as step;
ghost use Rattle.folder_files.specs.declared.step.Answer.TheVariants as answer;

use folder_files::{Answer, Event, History, Place, Step};
use mh_base::{Bytes, Name};
use std::alloc::{AllocError, Global};

/// One step of a run and its answer.
#[derive(Drop, Clone, Copy)]
pub struct DeedRef<'a> {
    pub step: &'a Step,
    pub answer: &'a Answer,
}

/// The deed of this run that an event is.
fn deed_in<'a>(event: &'a Event, run: u128) -> Option<DeedRef<'a>>
    ensures { MatchOption result (deed_of run event.now ≡ []) (λ d. deed_of run event.now ≡ seen d ∷ []) }
{
    match event {
        Event::Act {
            run: actor,
            step,
            answer,
            ..
        } if *actor == run => { Some(DeedRef { step, answer }) }
        _ => None,
    }
}

/// A run's deeds, the newest first.
#[tactic(auto, using(crate::proofs::Owns::own_nil, crate::proofs::Owns::own_more, crate::proofs::Owns::own_same))]
pub fn own_deeds<'a>(
    alloc: Global,
    history: &'a History,
    run: u128,
) -> Result<Vec<DeedRef<'a>>, AllocError>
    ensures { IfOk result (λ v. seen_all v.items ≡ own run (past_of history.now)) }
{
    let mut deeds = Vec::new(alloc);
    for event in history.as_slice().iter().rev() {
        if let Some(deed) = deed_in(event, run) {
            deeds.push(deed)?;
        }
    }
    Ok(deeds)
}

impl<'a> DeedRef<'a> {
    pub fn is_failed(&self) -> bool
        ensures { IsTrue result ↔ ((seen self.now).answer ≡ answer.Failed) }
    {
        matches!(self.answer, Answer::Failed)
    }

    fn is_done(&self) -> bool
        ensures { IsTrue result ↔ ((seen self.now).answer ≡ answer.Done) }
    {
        matches!(self.answer, Answer::Done)
    }

    /// The bytes of the new file.
    pub fn creates(&self, place: &Place, name: &Name) -> Option<&'a Bytes>
        ensures { MatchOption result
            ((bytes : List ℕ) → seen self.now ≢ did (step.Create place.now name.now bytes) answer.Done)
            (λ bytes. seen self.now ≡ did (step.Create place.now name.now bytes.now) answer.Done) }
    {
        match self.step {
            Step::Create(at, file, bytes) if at.same(place) && file.same(name) && self.is_done() =>
                { Some(bytes) }
            _ => None,
        }
    }

    pub fn syncs_file(&self, place: &Place, name: &Name) -> bool
        ensures { IsTrue result ↔ (seen self.now ≡ did (step.SyncFile place.now name.now) answer.Done) }
    {
        match self.step {
            Step::SyncFile(at, file) => at.same(place) && file.same(name) && self.is_done(),
            _ => false,
        }
    }

    pub fn syncs_folder(&self, place: &Place) -> bool
        ensures { IsTrue result ↔ (seen self.now ≡ did (step.SyncFolder place.now) answer.Done) }
    {
        match self.step {
            Step::SyncFolder(at) => at.same(place) && self.is_done(),
            _ => false,
        }
    }

    /// The second name.
    pub fn links(&self, place: &Place, from: &Name) -> Option<&'a Name>
        ensures { MatchOption result ((to : List ℕ) → seen self.now ≢ did (step.Link place.now from.now to) answer.Done)
            (λ to. seen self.now ≡ did (step.Link place.now from.now to.now) answer.Done) }
    {
        match self.step {
            Step::Link(at, old, new) if at.same(place) && old.same(from) && self.is_done() => {
                Some(new)
            }
            _ => None,
        }
    }

    /// The old name.
    pub fn renames(&self, place: &Place, to: &Name) -> Option<&'a Name>
        ensures { MatchOption result
            ((from : List ℕ) → seen self.now ≢ did (step.Rename place.now from to.now) answer.Done)
            (λ from. seen self.now ≡ did (step.Rename place.now from.now to.now) answer.Done) }
    {
        match self.step {
            Step::Rename(at, old, new) if at.same(place) && new.same(to) && self.is_done() => {
                Some(old)
            }
            _ => None,
        }
    }

    pub fn locks(&self, place: &Place) -> bool
        ensures { IsTrue result ↔ (seen self.now ≡ did (step.Lock place.now) answer.Done) }
    {
        match self.step {
            Step::Lock(at) => at.same(place) && self.is_done(),
            _ => false,
        }
    }

    /// Whatever the answer.
    pub fn unlocks(&self, place: &Place) -> bool
        ensures { IsTrue result ↔ ((seen self.now).step ≡ step.Unlock place.now) }
    {
        match self.step {
            Step::Unlock(at) => at.same(place),
            _ => false,
        }
    }
}
