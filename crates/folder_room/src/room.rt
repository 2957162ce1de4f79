// The mailbox in memory.
ghost use Rattle.std.specs.Prelude.{◌≡◌, ◌≤◌, ◌++◌, ◌∷◌, [], Some, IfOk, OnOk, OnErr, MatchResult, length, map, ◌+◌, ℕ};
ghost use Rattle.folder_files.specs.Histories.{past_of, world_after, IsLegal};
ghost use Rattle.folder_files.specs.Rows.{IsAnswerOf};
ghost use Rattle.folder_files.specs.Story.{Asks, Waits, Counts};
ghost use Rattle.folder_files.specs.Worlds.{shown};
ghost use Rattle.folder_files.specs.declared.event.Event.TheVariants as event;
ghost use Rattle.folder_files.specs.declared.world.World.{World};
ghost use Rattle.folder_room.specs.Played.{IsPlayed, turn_of};
ghost use Rattle.folder_room.specs.Seen.{Seen, IsNow, story_of, faults_after};
ghost use Rattle.mh_base.specs.Counts.{one_more};

use crate::course::Course;
use crate::playing::{fail_of, turn_at};
use crate::script::{Happening, PromptList};
use folder_files::{Answer, Files, History, Step, World};
use mh_base::{Duplicate, NumberList};
use std::alloc::{AllocError, Global};
use std::marker::Model;

/// A mailbox in memory. It stores its start, its history and the places of the steps that were asked
/// for, and runs a script: each prompt acts just before the call of `act` of its number, counted
/// from 1. A Fail makes the call fail, a Crash ends all runs and the call fails, and steps of other
/// runs are made where they are careful, and answered as the world has it. Locks are honest for every
/// run.
#[derive(Drop)]
pub struct Room {
    alloc: Global,
    start: World,
    course: Course,
    asked: NumberList,
    script: PromptList,
    calls: u64,
    faults: u64,
}

impl Model for Room {
    ghost use Rattle.folder_room.specs.Seen.{Seen, IsNow};

    ghost Value = { Seen };

    ghost view = { λ r.
        record {
          start = r.start;
          history = r.course.history;
          asked = r.asked;
          script = r.script;
          calls = r.calls;
          faults = r.faults;
        } };

    ghost invariant = { λ r. IsNow r.start r.course.world r.course.history };
}

impl Room {
    /// A mailbox that is this world.
    pub fn new(alloc: Global, world: World, script: PromptList) -> Result<Room, AllocError>
        ensures { IfOk result
            (λ r. r ≡ record { start = world; history = []; asked = []; script = script; calls = 0; faults = 0 }) }
    {
        let start = world.duplicate(alloc)?;
        Ok(Room {
            alloc,
            start,
            course: Course {
                world,
                history: History::new(alloc),
            },
            asked: NumberList::new(alloc),
            script,
            calls: 0,
            faults: 0,
        })
    }

    /// The world as it is now.
    pub fn world(&self) -> &World
        ensures { shown result.now ≡ world_after self.now.start (past_of self.now.history) }
    {
        &self.course.world
    }

    /// All events since the start, the oldest first.
    pub fn history(&self) -> &History
        ensures value { result.now ≡ self.now.history }
        ensures possible { IsLegal self.now.start (past_of self.now.history) }
    {
        &self.course.history
    }

    /// The places in the history of the steps that were asked for.
    pub fn asked(&self) -> &NumberList
        ensures { result.now ≡ self.now.asked }
    {
        &self.asked
    }

    /// How many calls were answered Failed.
    pub fn faults(&self) -> u64
        ensures { result ≡ self.now.faults }
    {
        self.faults
    }

    /// The run ends, and its locks fall.
    pub fn end(&mut self, run: u128) -> Result<(), AllocError>
        ensures ok { OnOk result (self.new ≡ record self.old { history = self.old.history ++ event.End run ∷ [] }) }
        ensures err { OnErr result (self.new ≡ self.old) }
    {
        self.course.end(self.alloc, run)
    }
}

/// One call of `act`, with its turn.
fn take_turn(
    alloc: Global,
    course: &mut Course,
    asked: &mut NumberList,
    run: u128,
    step: &Step,
    turn: &[&Happening],
) -> Result<Answer, AllocError>
    ensures now { (start : World) → IsNow start course.old.world course.old.history
        → IsNow start course.new.world course.new.history }
    ensures played { (start : World) → IsNow start course.old.world course.old.history
        → IsPlayed start run step.now (map (λ h. h.now) turn.now) (past_of course.old.history) result
        (past_of course.new.history) }
    ensures asked { MatchResult result
        (λ a. (start : World) → IsNow start course.old.world course.old.history
        → (place : ℕ) × ((asked.new ≡ asked.old ++ place ∷ []) × (place + 1 ≡ length course.new.history)))
        (λ _. asked.new ≡ asked.old) }
{
    let fail = fail_of(turn);
    let crash = course.play(alloc, run, turn)?;
    let events = course.history.len() as u64;
    match crash {
        None => {
            asked.push(events)?;
            match course.finish(alloc, run, step, fail) {
                Ok(answer) => Ok(answer),
                Err(wanting) => {
                    asked.pop();
                    Err(wanting)
                }
            }
        }
        Some(crash) => {
            let Some(place) = events.checked_add(1) else {
                return Err(AllocError);
            };
            asked.push(place)?;
            match course.finish_within(alloc, run, step, crash) {
                Ok(answer) => Ok(answer),
                Err(wanting) => {
                    asked.pop();
                    Err(wanting)
                }
            }
        }
    }
}

impl Room {
    /// One call of `act` but for its count.
    fn turn(&mut self, alloc: Global, run: u128, step: &Step) -> Result<Answer, AllocError>
        ensures start { self.new.start ≡ self.old.start }
        ensures script { self.new.script ≡ self.old.script }
        ensures calls { self.new.calls ≡ one_more self.old.calls }
        ensures faults { self.new.faults ≡ self.old.faults }
        ensures legal { IsLegal self.new.start (past_of self.new.history) }
        ensures played { IsPlayed self.old.start run step.now (turn_of self.new.calls self.old.script)
            (past_of self.old.history) result (past_of self.new.history) }
        ensures asked { MatchResult result
            (λ a. (place : ℕ)
            × ((self.new.asked ≡ self.old.asked ++ place ∷ []) × (place + 1 ≡ length self.new.history)))
            (λ _. self.new.asked ≡ self.old.asked) }
    {
        self.calls = self.calls.saturating_add(1);
        match turn_at(alloc, self.script.as_slice(), self.calls) {
            Ok(turn) => take_turn(alloc, &mut self.course, &mut self.asked, run, step, &turn),
            Err(wanting) => Err(wanting),
        }
    }

    /// Counts the answers that are Failed.
    fn counted(&mut self, answer: Answer) -> Answer
        ensures same { result ≡ answer }
        ensures room { self.new ≡ record self.old { faults = faults_after self.old.faults answer } }
        ensures cause { Counts self.old.faults self.new.faults answer }
    {
        match answer {
            Answer::Failed => {
                self.faults = self.faults.saturating_add(1);
                Answer::Failed
            }
            answer => answer,
        }
    }
}

impl Files for Room {
    ghost state = { λ r. record { story = Some (story_of r); faults = r.faults } };

    fn act(&mut self, alloc: Global, run: u128, step: &Step) -> Result<Answer, AllocError>
        ensures step { MatchResult result
            (λ a. Asks run (Some (story_of self.old)) (Some (story_of self.new)) step.now a)
            (λ _. Waits run (Some (story_of self.old)) (Some (story_of self.new))) }
        ensures row { IfOk result (λ a. IsAnswerOf step.now a) }
        ensures cause { MatchResult result (λ a. Counts self.old.faults self.new.faults a)
            (λ _. self.old.faults ≤ self.new.faults) }
        ensures script { IsPlayed self.old.start run step.now (turn_of self.new.calls self.old.script)
            (past_of self.old.history) result (past_of self.new.history) }
        ensures calls { self.new.calls ≡ one_more self.old.calls }
        ensures counted { MatchResult result (λ a. self.new.faults ≡ faults_after self.old.faults a)
            (λ _. self.new.faults ≡ self.old.faults) }
        ensures same_start { self.new.start ≡ self.old.start }
        ensures same_script { self.new.script ≡ self.old.script }
    {
        match self.turn(alloc, run, step) {
            Ok(answer) => Ok(self.counted(answer)),
            Err(wanting) => Err(wanting),
        }
    }
}
