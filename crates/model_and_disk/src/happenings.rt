// What happens between steps: runs end, drops change, and people do things by hand.
use crate::counts::Counts;
use crate::dice::Dice;
use crate::meddled::ALL_LEADS;
use crate::names::any_name;
use crate::pair::{Pair, run_number};
use crate::runs::End;
use crate::sites::{ALL, DROPS};
use crate::texts::text;
use mh_base::Name;
use std::test::Fail;

/// What happens to a pair, by chance, and how often.
#[derive(Drop)]
pub struct Chance<'a> {
    pub pair: &'a mut Pair,
    pub dice: &'a mut Dice,
    pub counts: &'a mut Counts,
}

impl Chance<'_> {
    fn end(&mut self, rt: &HostRuntime, end: End, word: &'static str) -> Result<(), Fail> {
        let count = self.pair.count_of_runs();
        let place = self.dice.place(count);
        self.pair.end_run(rt, place, end)?;
        self.counts.add("a run", word)
    }

    fn grow(&mut self, rt: &HostRuntime) -> Result<(), Fail> {
        let drop = self.dice.one_of(DROPS)?;
        let piece = text(rt.alloc(), self.dice)?;
        let as_link = self.dice.one_in(3);
        self.pair.grow(rt, &drop, &piece, as_link)?;
        self.counts.add("a drop", "grew")
    }

    fn go_away(&mut self, rt: &HostRuntime) -> Result<(), Fail> {
        let drop = self.dice.one_of(DROPS)?;
        if self.pair.go_away(rt, &drop)? {
            self.counts.add("a drop", "went away")?;
        }
        Ok(())
    }

    fn name(&mut self, rt: &HostRuntime) -> Result<Name, Fail> {
        let began = self.pair.began;
        let place = self.dice.below(began).saturating_add(1);
        any_name(rt.alloc(), self.dice, run_number(place))
    }

    fn make_directory(&mut self, rt: &HostRuntime) -> Result<(), Fail> {
        let at = self.dice.one_of(ALL)?;
        let name = self.name(rt)?;
        if self.pair.make_directory(rt, at, name)? {
            self.counts.add("a directory by hand", "made")?;
        }
        Ok(())
    }

    fn make_link(&mut self, rt: &HostRuntime) -> Result<(), Fail> {
        let at = self.dice.one_of(ALL)?;
        let leads = self.dice.one_of(ALL_LEADS)?;
        let name = self.name(rt)?;
        if self.pair.make_link(rt, at, name, leads)? {
            self.counts.add("a link by hand", "made")?;
        }
        Ok(())
    }

    fn remove_directory(&mut self, rt: &HostRuntime) -> Result<(), Fail> {
        let count = self.pair.meddled.directories.len();
        let number = self.dice.place(count);
        if self.pair.remove_directory(rt, number)? {
            self.counts.add("a directory by hand", "went away")?;
        }
        Ok(())
    }

    /// Mostly nothing.
    pub fn happen(&mut self, rt: &HostRuntime) -> Result<(), Fail> {
        match self.dice.below(400) {
            0..=5 => self.end(rt, End::Closed, "ended"),
            6..=7 => self.end(rt, End::Killed, "killed"),
            8..=19 => self.grow(rt),
            20..=22 => self.go_away(rt),
            23..=27 => self.make_directory(rt),
            28..=33 => self.make_link(rt),
            34..=37 => self.remove_directory(rt),
            _ => Ok(()),
        }
    }
}
