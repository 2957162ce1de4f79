// What a script makes of a course at one call.
ghost use Rattle.std.specs.Prelude.{◌≡◌, ◌≢◌, ◌++◌, ◌∷◌, [], true, false, map, List, Option, Some, None, IfOk, OnOk, OnErr, IfSome, IfNone, MatchOption, MatchResult};
ghost use Rattle.folder_files.specs.Histories.{past_of};
ghost use Rattle.folder_files.specs.Worlds.{shown};
ghost use Rattle.folder_files.specs.declared.step.Answer.TheVariants as answer;
ghost use Rattle.folder_files.specs.declared.event.After.{After};
ghost use Rattle.folder_files.specs.declared.step.Answer.{Answer};
ghost use Rattle.folder_files.specs.declared.world.World.{World};
ghost use Rattle.folder_files.specs.Steps.{left_by};
ghost use Rattle.folder_room.specs.Left.{left_of, failed_of};
ghost use Rattle.folder_room.specs.Played as played;
ghost use Rattle.folder_room.specs.Seen.{IsNow};
ghost use Rattle.folder_room.specs.declared.script.Happening.{Happening};
ghost use Rattle.folder_room.specs.declared.script.Happening.TheVariants as happening;

use crate::course::Course;
use crate::images::has_ended;
use crate::script::{Happening, KeepList, Prompt};
use folder_files::{After, Answer, Event, Step};
use mh_base::Duplicate;
use std::alloc::{AllocError, Global};
use step_discipline::may_step;

/// What the script has for this call, in its order.
pub fn turn_at<'a>(
    alloc: Global,
    script: &'a [Prompt],
    call: u64,
) -> Result<Vec<&'a Happening>, AllocError>
    ensures { IfOk result (λ v. map (λ h. h.now) v.items ≡ played.turn_of call script.now) }
{
    let mut turn = Vec::new(alloc);
    for prompt in script {
        if prompt.at == call {
            turn.push(&prompt.what)?;
        }
    }
    Ok(turn)
}

fn fail_in<'a>(what: &'a Happening) -> Option<&'a After>
    ensures { MatchOption result (played.fail_of (what.now ∷ []) ≡ None)
        (λ m. played.fail_of (what.now ∷ []) ≡ Some m.now) }
{
    match what {
        Happening::Fail { after } => Some(after),
        _ => None,
    }
}

/// What the last Fail of a turn says.
pub fn fail_of<'a>(turn: &[&'a Happening]) -> Option<&'a After>
    ensures { MatchOption result (played.fail_of (map (λ h. h.now) turn.now) ≡ None)
        (λ m. played.fail_of (map (λ h. h.now) turn.now) ≡ Some m.now) }
{
    match turn.split_first() {
        None => None,
        Some((first, rest)) => match fail_of(rest) {
            Some(later) => Some(later),
            None => fail_in(first),
        },
    }
}

/// A crash within the step.
#[derive(Drop, Clone, Copy)]
pub struct Within<'a> {
    pub keeps: &'a KeepList,
    pub fill: u8,
}

fn made_crash<'a>(what: &'a Happening) -> Option<Within<'a>>
    ensures some { IfSome result (λ w. what.now ≡ happening.Crash w.keeps.now w.fill true) }
    ensures none { IfNone result ((turn : List Happening) → played.is_within what.now turn ≡ false) }
{
    match what {
        Happening::Crash {
            keep,
            fill,
            made: true,
        } => Some(Within {
            keeps: keep,
            fill: *fill,
        }),
        _ => None,
    }
}

/// How a step fails.
fn failing(alloc: Global, step: &Step, after: &After) -> Result<After, AllocError>
    ensures { IfOk result (λ m. m ≡ played.failing step.now after.now) }
{
    match (step, after) {
        (Step::Create(_, _, _), After::Torn(bytes)) => Ok(After::Torn(bytes.duplicate(alloc)?)),
        (_, After::Torn(_)) => Ok(After::Before),
        (_, After::Before) => Ok(After::Before),
        (_, After::Made) => Ok(After::Made),
    }
}

impl Course {
    #[tactic(auto, unfolding(folder_files::specs::Worlds::shown))]
    fn is_dead(&self, run: u128) -> bool
        ensures { result ≡ (shown self.now.world).ended run }
    {
        has_ended(self.world.ended.as_slice(), run)
    }

    /// A step of a run that the script has.
    fn act_other(&mut self, alloc: Global, other: u128, step: &Step) -> Result<(), AllocError>
        ensures now { (start : World) → IsNow start self.old.world self.old.history
            → IsNow start self.new.world self.new.history }
        ensures ok { (start : World) → IsNow start self.old.world self.old.history
            → OnOk result (played.IsActed start other step.now (past_of self.old.history) (past_of self.new.history)) }
        ensures err { OnErr result (self.new ≡ self.old) }
    {
        if self.is_dead(other) {
            return self.fail(alloc, other, step, &After::Before);
        }
        self.answer(alloc, other, step)?;
        Ok(())
    }

    /// The same, unless it is the calling run's own step, or not careful.
    fn play_other(
        &mut self,
        alloc: Global,
        run: u128,
        other: u128,
        step: &Step,
    ) -> Result<(), AllocError>
        ensures now { (start : World) → IsNow start self.old.world self.old.history
            → IsNow start self.new.world self.new.history }
        ensures ok { (start : World) → IsNow start self.old.world self.old.history
            → OnOk result
            (played.PlaysOne start run (happening.Other other step.now) (past_of self.old.history)
            (past_of self.new.history)) }
        ensures err { OnErr result (self.new ≡ self.old) }
    {
        if other == run {
            return Ok(());
        }
        let is_careful = may_step(alloc, &self.history, other, step)?;
        if !is_careful {
            return Ok(());
        }
        self.act_other(alloc, other, step)
    }

    /// One prompt acts.
    fn play_one(&mut self, alloc: Global, run: u128, what: &Happening) -> Result<(), AllocError>
        ensures now { (start : World) → IsNow start self.old.world self.old.history
            → IsNow start self.new.world self.new.history }
        ensures ok { (start : World) → IsNow start self.old.world self.old.history
            → OnOk result (played.PlaysOne start run what.now (past_of self.old.history) (past_of self.new.history)) }
        ensures err { OnErr result (self.new ≡ self.old) }
    {
        match what {
            Happening::Other { run: other, step } => self.play_other(alloc, run, *other, step),
            Happening::Deliver { path, piece } => self.deliver(alloc, path, piece),
            Happening::Fail { .. } => Ok(()),
            Happening::Crash { keep, fill, .. } => self.crash(alloc, run, keep, *fill),
        }
    }

    /// The crash within the step that this prompt is, where it is the last and the run is live.
    fn within<'a>(
        &self,
        run: u128,
        what: &'a Happening,
        turn: &[&'a Happening],
    ) -> Option<Within<'a>>
        ensures some { IfSome result
            (λ w. ((what.now ≡ happening.Crash w.keeps.now w.fill true) × (turn.now ≡ []))
            × ((shown self.now.world).ended run ≡ false)) }
        ensures none { IfNone result
            (played.is_within what.now (map (λ h. h.now) turn.now) ≡ true → (shown self.now.world).ended run ≡ true) }
    {
        let crash = made_crash(what)?;
        if turn.is_empty() && !self.is_dead(run) {
            Some(crash)
        } else {
            None
        }
    }

    /// Plays a turn, until a crash within the step is left.
    pub fn play<'a>(
        &mut self,
        alloc: Global,
        run: u128,
        turn: &[&'a Happening],
    ) -> Result<Option<Within<'a>>, AllocError>
        ensures now { (start : World) → IsNow start self.old.world self.old.history
            → IsNow start self.new.world self.new.history }
        ensures plays { (start : World) → IsNow start self.old.world self.old.history
            → MatchResult result
            (λ o.
            played.Plays start run (left_of o) (map (λ h. h.now) turn.now) (past_of self.old.history)
            (past_of self.new.history))
            (λ _. (left : List Happening)
            × played.Plays start run left (map (λ h. h.now) turn.now) (past_of self.old.history)
            (past_of self.new.history)) }
        ensures live { IfOk result (λ o. IfSome o (λ _. (shown self.new.world).ended run ≡ false)) }
    {
        match turn.split_first() {
            None => Ok(None),
            Some((what, rest)) => match self.within(run, what, rest) {
                Some(crash) => Ok(Some(crash)),
                None => match self.play_one(alloc, run, what) {
                    Ok(()) => self.play(alloc, run, rest),
                    Err(wanting) => Err(wanting),
                },
            },
        }
    }

    /// A live run's step that a script makes fail.
    fn fail_by(
        &mut self,
        alloc: Global,
        run: u128,
        step: &Step,
        after: &After,
    ) -> Result<(), AllocError>
        ensures ok { OnOk result
            ((self.new.history ≡ self.old.history
            ++ Event.Act run step.now answer.Failed (played.failing step.now after.now) ∷ [])
            × (shown self.new.world
            ≡ left_by (shown self.old.world) run step.now answer.Failed (played.failing step.now after.now))) }
        ensures err { OnErr result (self.new ≡ self.old) }
    {
        let after = failing(alloc, step, after)?;
        self.fail(alloc, run, step, &after)
    }

    /// The step of a live run, where a Fail may stand at its call.
    fn answer_live(
        &mut self,
        alloc: Global,
        run: u128,
        step: &Step,
        fail: Option<&After>,
    ) -> Result<Answer, AllocError>
        requires { (shown self.old.world).ended run ≡ false }
        ensures now { (start : World) → IsNow start self.old.world self.old.history
            → IsNow start self.new.world self.new.history }
        ensures ok { (start : World) → IsNow start self.old.world self.old.history
            → IfOk result
            (λ a.
            played.IsAnswered start run step.now (failed_of fail.entry) (past_of self.old.history) [] a
            (past_of self.new.history)) }
        ensures err { OnErr result (self.new ≡ self.old) }
    {
        match fail {
            None => self.answer(alloc, run, step),
            Some(after) => {
                self.fail_by(alloc, run, step, after)?;
                Ok(Answer::Failed)
            }
        }
    }

    /// The step, after the prompts of its call.
    pub fn finish(
        &mut self,
        alloc: Global,
        run: u128,
        step: &Step,
        fail: Option<&After>,
    ) -> Result<Answer, AllocError>
        ensures now { (start : World) → IsNow start self.old.world self.old.history
            → IsNow start self.new.world self.new.history }
        ensures ok { (start : World) → IsNow start self.old.world self.old.history
            → IfOk result
            (λ a.
            played.IsAnswered start run step.now (failed_of fail.entry) (past_of self.old.history) [] a
            (past_of self.new.history)) }
        ensures err { OnErr result (self.new ≡ self.old) }
    {
        if self.is_dead(run) {
            self.fail(alloc, run, step, &After::Before)?;
            return Ok(Answer::Failed);
        }
        self.answer_live(alloc, run, step, fail)
    }

    /// The step, and within it a crash.
    pub fn finish_within(
        &mut self,
        alloc: Global,
        run: u128,
        step: &Step,
        crash: Within,
    ) -> Result<Answer, AllocError>
        requires { (shown self.old.world).ended run ≡ false }
        ensures now { (start : World) → IsNow start self.old.world self.old.history
            → IsNow start self.new.world self.new.history }
        ensures ok { (start : World) (fail : Option After) → IsNow start self.old.world self.old.history
            → IfOk result
            (λ a.
            played.IsAnswered start run step.now fail (past_of self.old.history)
            (happening.Crash crash.entry.keeps.now crash.entry.fill true ∷ []) a
            (past_of self.new.history)) }
        ensures err { OnErr result (self.new ≡ self.old) }
    {
        self.crash_within(alloc, run, step, crash.keeps, crash.fill)?;
        Ok(Answer::Failed)
    }
}
