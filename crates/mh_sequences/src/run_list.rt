// Runs with room on both sides.
ghost use Rattle.std.specs.Prelude.{◌≡◌, ◌≤◌, ◌<◌, ◌+◌, ◌∷◌, ◌++◌, [], length, take, drop, slice_set, IfOk, OnOk, OnErr, IsOk};

use crate::Run;
use crate::slots::{cut_before, cut_out, put, put_before, room_before, room_behind};
use std::alloc::{AllocError, Global};
use std::marker::Model;

/// Runs in slots, of which some before them and some behind may be unused. Contracts see the runs and how many slots
/// are unused.
///
/// A change moves the runs between its place and the nearer end. Where no slot is unused there, half of those at the
/// other end go there first, which moves all: seldom, unless few are left and both ends change in turns.
#[derive(Drop)]
pub(crate) struct RunList {
    slots: Vec<Run>,
    start: usize,
}

impl Model for RunList {
    ghost use Rattle.std.specs.Prelude.{◌≤◌, ◌-◌, ◌+◌, drop, vec_len};
    ghost use Rattle.std.specs.Vec.{vec_capacity};
    ghost use Rattle.mh_sequences.specs.Runs.{Numbers, set_of};

    ghost Value = { Numbers };

    ghost view = { λ l. set_of (drop l.start l.slots.items) (vec_capacity l.slots - vec_len l.slots + l.start) };

    ghost invariant = { λ l. l.start ≤ vec_len l.slots };
}

impl RunList {
    pub(crate) fn new(alloc: Global) -> RunList
        ensures { result.runs ≡ [] }
    {
        RunList {
            slots: Vec::new(alloc),
            start: 0,
        }
    }

    pub(crate) fn as_slice(&self) -> &[Run]
        ensures { result.now ≡ self.now.runs }
    {
        &self.slots[self.start..]
    }

    pub(crate) fn len(&self) -> usize
        ensures { result ≡ length self.now.runs }
    {
        self.slots.len() - self.start
    }

    /// How many slots are unused.
    fn spare(&self) -> usize
        ensures { result ≡ self.now.spare }
    {
        self.slots.capacity() - self.slots.len() + self.start
    }

    pub(crate) fn into_vec(self) -> Vec<Run>
        ensures { result.items ≡ self.runs }
    {
        let RunList { mut slots, start } = self;
        cut_out(&mut slots, 0, start);
        slots
    }

    pub(crate) fn copy(&self, alloc: Global) -> Result<RunList, AllocError>
        ensures { IfOk result (λ l. l.runs ≡ self.now.runs) }
    {
        Ok(RunList {
            slots: self.as_slice().to_vec(alloc)?,
            start: 0,
        })
    }

    pub(crate) fn reserve(&mut self, more: usize) -> Result<(), AllocError>
        ensures ok { OnOk result (more ≤ self.new.spare) }
        ensures runs { self.new.runs ≡ self.old.runs }
        ensures err { OnErr result (self.new ≡ self.old) }
    {
        self.slots.reserve(more.saturating_sub(self.start))
    }

    pub(crate) fn set(&mut self, at: usize, run: Run)
        requires { at < length self.old.runs }
        ensures runs { self.new.runs ≡ slice_set self.old.runs at run }
        ensures spare { self.new.spare ≡ self.old.spare }
    {
        let slot = self.start + at;
        self.slots[slot] = run;
    }

    /// Puts a run at a place, by a move of those before it.
    fn put_before(&mut self, at: usize, run: Run)
        requires room { 1 ≤ self.old.spare }
        requires place { at ≤ length self.old.runs }
        ensures runs { self.new.runs ≡ take at self.old.runs ++ run ∷ drop at self.old.runs }
        ensures spare { self.old.spare ≤ self.new.spare + 1 }
    {
        let start = room_before(&mut self.slots, self.start);
        put_before(&mut self.slots, start, at, run);
        self.start = start - 1;
    }

    /// Puts a run at a place, by a move of those behind it, or leaves all as it was.
    fn put_behind(&mut self, at: usize, run: Run) -> Result<(), AllocError>
        requires { at ≤ length self.old.runs }
        ensures ok { OnOk result (self.new.runs ≡ take at self.old.runs ++ run ∷ drop at self.old.runs) }
        ensures err { OnErr result (self.new ≡ self.old) }
        ensures succeeds { 1 ≤ self.old.spare → IsOk result }
        ensures spare { self.old.spare ≤ self.new.spare + 1 }
    {
        self.start = room_behind(&mut self.slots, self.start);
        let slot = self.start + at;
        put(&mut self.slots, slot, run)
    }

    /// Puts a run at a place, or leaves all as it was.
    pub(crate) fn put(&mut self, at: usize, run: Run) -> Result<(), AllocError>
        requires { at ≤ length self.old.runs }
        ensures ok { OnOk result (self.new.runs ≡ take at self.old.runs ++ run ∷ drop at self.old.runs) }
        ensures err { OnErr result (self.new ≡ self.old) }
        ensures succeeds { 1 ≤ self.old.spare → IsOk result }
        ensures spare { self.old.spare ≤ self.new.spare + 1 }
    {
        if at < self.len() - at && self.spare() > 0 {
            self.put_before(at, run);
            return Ok(());
        }
        self.put_behind(at, run)
    }

    /// Takes runs out, by a move of those before them.
    fn cut_before(&mut self, from: usize, to: usize)
        requires order { from ≤ to }
        requires within { to ≤ length self.old.runs }
        ensures runs { self.new.runs ≡ take from self.old.runs ++ drop to self.old.runs }
        ensures spare { self.old.spare ≤ self.new.spare }
    {
        cut_before(&mut self.slots, self.start, from, to);
        self.start += to - from;
    }

    /// Takes runs out, by a move of those behind them.
    fn cut_behind(&mut self, from: usize, to: usize)
        requires order { from ≤ to }
        requires within { to ≤ length self.old.runs }
        ensures runs { self.new.runs ≡ take from self.old.runs ++ drop to self.old.runs }
        ensures spare { self.old.spare ≤ self.new.spare }
    {
        let start = self.start;
        cut_out(&mut self.slots, start + from, start + to);
    }

    /// Takes the runs from one place up to another out.
    pub(crate) fn cut_out(&mut self, from: usize, to: usize)
        requires order { from ≤ to }
        requires within { to ≤ length self.old.runs }
        ensures runs { self.new.runs ≡ take from self.old.runs ++ drop to self.old.runs }
        ensures spare { self.old.spare ≤ self.new.spare }
    {
        if from < self.len() - to {
            self.cut_before(from, to);
        } else {
            self.cut_behind(from, to);
        }
    }
}
