// A world and the events that led to it.
ghost use Rattle.std.specs.Prelude.{◌≡◌, ◌++◌, ◌∷◌, [], IfOk, OnOk, OnErr};
ghost use Rattle.folder_files.specs.Histories.{after_delivery, after_end, past_of};
ghost use Rattle.folder_files.specs.Steps.{Fits, made, made_by, left_by};
ghost use Rattle.folder_files.specs.Worlds.{shown};
ghost use Rattle.folder_files.specs.declared.event.After.TheVariants as after;
ghost use Rattle.folder_files.specs.declared.step.Answer.TheVariants as answer;
ghost use Rattle.folder_files.specs.declared.world.World.{World};
ghost use Rattle.folder_room.specs.Crashing.{IsCrashBy};
ghost use Rattle.folder_room.specs.Played.{IsHonest, has_acted_or_is};

use crate::images::crashed;
use crate::script::KeepList;
use crate::steps::{due, leave, make, make_answered};
use crate::{locks, outside};
use folder_files::{After, Answer, Event, FilePath, History, Step, World};
use mh_base::{Bytes, Duplicate};
use std::alloc::{AllocError, Global};

/// A world and the events that led to it.
#[derive(Drop)]
pub struct Course {
    pub world: World,
    pub history: History,
}

fn act_of(run: u128, step: Step, answer: Answer, after: After) -> Event
    ensures { result ≡ Event.Act run step answer after }
{
    Event::Act {
        run,
        step,
        answer,
        after,
    }
}

fn act_after(
    alloc: Global,
    run: u128,
    step: Step,
    answer: Answer,
    after: &After,
) -> Result<Event, AllocError>
    ensures { IfOk result (λ e. e ≡ Event.Act run step answer after.now) }
{
    match after.duplicate(alloc) {
        Ok(after) => Ok(act_of(run, step, answer, after)),
        Err(wanting) => Err(wanting),
    }
}

fn act_answered(
    alloc: Global,
    run: u128,
    step: Step,
    answer: &Answer,
    after: &After,
) -> Result<Event, AllocError>
    ensures { IfOk result (λ e. e ≡ Event.Act run step answer.now after.now) }
{
    match answer.duplicate(alloc) {
        Ok(answer) => act_after(alloc, run, step, answer, after),
        Err(wanting) => Err(wanting),
    }
}

/// The event of a step. Each copy is made in a function of its own: a copy that is dropped where the next one fails
/// is looked at case by case.
fn act(
    alloc: Global,
    run: u128,
    step: &Step,
    answer: &Answer,
    after: &After,
) -> Result<Event, AllocError>
    ensures { IfOk result (λ e. e ≡ Event.Act run step.now answer.now after.now) }
{
    match step.duplicate(alloc) {
        Ok(step) => act_answered(alloc, run, step, answer, after),
        Err(wanting) => Err(wanting),
    }
}

impl Course {
    fn push(&mut self, event: Event) -> Result<(), AllocError>
        ensures world { self.new.world ≡ self.old.world }
        ensures ok { OnOk result (self.new.history ≡ self.old.history ++ event ∷ []) }
        ensures err { OnErr result (self.new ≡ self.old) }
    {
        self.history.push(event)
    }

    fn put(
        &mut self,
        alloc: Global,
        run: u128,
        step: &Step,
        answer: &Answer,
    ) -> Result<(), AllocError>
        ensures ok { OnOk result
            ((self.new.history ≡ self.old.history ++ Event.Act run step.now answer.now after.Made ∷ [])
            × (shown self.new.world ≡ made_by (shown self.old.world) run step.now answer.now)) }
        ensures err { OnErr result (self.new ≡ self.old) }
    {
        let event = act(alloc, run, step, answer, &After::Made)?;
        self.history.push(event)?;
        match make_answered(alloc, &mut self.world, run, step, answer) {
            Ok(()) => Ok(()),
            Err(wanting) => {
                self.history.pop();
                Err(wanting)
            }
        }
    }

    /// A live run's step, answered as the world has it.
    pub fn answer(&mut self, alloc: Global, run: u128, step: &Step) -> Result<Answer, AllocError>
        ensures fits { IfOk result (λ a. Fits (shown self.old.world) run step.now a) }
        ensures honest { IfOk result (λ a. IsHonest (shown self.old.world) run step.now a) }
        ensures ok { IfOk result
            (λ a. (self.new.history ≡ self.old.history ++ Event.Act run step.now a after.Made ∷ [])
            × (shown self.new.world ≡ made_by (shown self.old.world) run step.now a)) }
        ensures err { OnErr result (self.new ≡ self.old) }
    {
        let answer = due(alloc, &self.world, run, step)?;
        self.put(alloc, run, step, &answer)?;
        Ok(answer)
    }

    /// A step that fails.
    pub fn fail(
        &mut self,
        alloc: Global,
        run: u128,
        step: &Step,
        after: &After,
    ) -> Result<(), AllocError>
        ensures ok { OnOk result
            ((self.new.history ≡ self.old.history ++ Event.Act run step.now answer.Failed after.now ∷ [])
            × (shown self.new.world ≡ left_by (shown self.old.world) run step.now answer.Failed after.now)) }
        ensures err { OnErr result (self.new ≡ self.old) }
    {
        let event = act(alloc, run, step, &Answer::Failed, after)?;
        self.history.push(event)?;
        match leave(alloc, &mut self.world, run, step, after) {
            Ok(()) => Ok(()),
            Err(wanting) => {
                self.history.pop();
                Err(wanting)
            }
        }
    }

    pub fn deliver(
        &mut self,
        alloc: Global,
        path: &FilePath,
        piece: &Bytes,
    ) -> Result<(), AllocError>
        ensures ok { OnOk result
            ((self.new.history ≡ self.old.history ++ Event.Deliver path.now piece.now ∷ [])
            × (shown self.new.world ≡ after_delivery (shown self.old.world) path.now piece.now)) }
        ensures err { OnErr result (self.new ≡ self.old) }
    {
        let event = Event::Deliver {
            path: path.duplicate(alloc)?,
            piece: piece.duplicate(alloc)?,
        };
        self.history.push(event)?;
        match outside::deliver(alloc, &mut self.world, path, piece) {
            Ok(()) => Ok(()),
            Err(wanting) => {
                self.history.pop();
                Err(wanting)
            }
        }
    }

    pub fn end(&mut self, alloc: Global, run: u128) -> Result<(), AllocError>
        ensures ok { OnOk result
            ((self.new.history ≡ self.old.history ++ Event.End run ∷ [])
            × (shown self.new.world ≡ after_end (shown self.old.world) run)) }
        ensures err { OnErr result (self.new ≡ self.old) }
    {
        self.history.push(Event::End { run })?;
        match locks::end(alloc, &mut self.world, run) {
            Ok(()) => Ok(()),
            Err(wanting) => {
                self.history.pop();
                Err(wanting)
            }
        }
    }

    /// A crash at a call of this run.
    pub fn crash(
        &mut self,
        alloc: Global,
        run: u128,
        keeps: &KeepList,
        fill: u8,
    ) -> Result<(), AllocError>
        ensures ok { OnOk result
            ((v : World)
            × ((self.new.history ≡ self.old.history ++ Event.Crash v ∷ []) × (shown self.new.world ≡ shown v)
            × IsCrashBy keeps.now fill (has_acted_or_is run (past_of self.old.history)) (shown self.old.world)
            (shown v))) }
        ensures err { OnErr result (self.new ≡ self.old) }
    {
        let found = crashed(alloc, &self.world, &self.history, run, keeps, fill)?;
        let event = Event::Crash(found.duplicate(alloc)?);
        self.history.push(event)?;
        self.world = found;
        Ok(())
    }

    /// A step that fails and leaves nothing, where the world stays.
    fn add_failed(&mut self, alloc: Global, run: u128, step: &Step) -> Result<(), AllocError>
        ensures world { self.new.world ≡ self.old.world }
        ensures ok { OnOk result
            (self.new.history ≡ self.old.history ++ Event.Act run step.now answer.Failed after.Before ∷ []) }
        ensures err { OnErr result (self.new ≡ self.old) }
    {
        let event = act(alloc, run, step, &Answer::Failed, &After::Before)?;
        self.history.push(event)
    }

    /// The world after a step of this run.
    fn made_in(&self, alloc: Global, run: u128, step: &Step) -> Result<World, AllocError>
        ensures { IfOk result (λ v. shown v ≡ made (shown self.now.world) run step.now) }
    {
        let mut world = self.world.duplicate(alloc)?;
        match make(alloc, &mut world, run, step) {
            Ok(()) => Ok(world),
            Err(wanting) => Err(wanting),
        }
    }

    fn crashed_within(
        &self,
        alloc: Global,
        run: u128,
        step: &Step,
        keeps: &KeepList,
        fill: u8,
    ) -> Result<World, AllocError>
        ensures { IfOk result
            (λ v.
            IsCrashBy keeps.now fill (has_acted_or_is run (past_of self.now.history))
            (made (shown self.now.world) run step.now) (shown v)) }
    {
        let world = self.made_in(alloc, run, step)?;
        crashed(alloc, &world, &self.history, run, keeps, fill)
    }

    /// A crash after a step of this run was made, and before it was answered.
    pub fn crash_within(
        &mut self,
        alloc: Global,
        run: u128,
        step: &Step,
        keeps: &KeepList,
        fill: u8,
    ) -> Result<(), AllocError>
        ensures ok { OnOk result
            ((v : World)
            × ((self.new.history ≡ (self.old.history ++ Event.Crash v ∷ [])
            ++ Event.Act run step.now answer.Failed after.Before ∷ []) × (shown self.new.world ≡ shown v)
            × IsCrashBy keeps.now fill (has_acted_or_is run (past_of self.old.history))
            (made (shown self.old.world) run step.now) (shown v))) }
        ensures err { OnErr result (self.new ≡ self.old) }
    {
        let found = self.crashed_within(alloc, run, step, keeps, fill)?;
        let crash = Event::Crash(found.duplicate(alloc)?);
        self.history.push(crash)?;
        match self.add_failed(alloc, run, step) {
            Ok(()) => {
                self.world = found;
                Ok(())
            }
            Err(wanting) => {
                self.history.pop();
                Err(wanting)
            }
        }
    }
}
