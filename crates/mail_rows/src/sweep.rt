// The same lines again and again: with one prompt at each step in turn, or woven with another run's steps in many ways.
use crate::commands::{Commands, OTHER, steps_alone};
use crate::stretches::{Stretch, add_time, show_stretches};
use folder_room::PromptList;
use mh_base::Bytes;
use row_mailboxes::{Given, prompt};
use row_rooms::woven;
use row_text::{from, word};
use std::alloc::Global;
use std::test::Fail;

/// The most steps that are tried where the line says no number.
const STEPS: u64 = 500;

/// What happens, and the lines.
#[derive(Drop)]
pub(crate) struct Sweep {
    alloc: Global,
    /// How many times it happens; none: as long as it is a step's failure.
    times: Option<u64>,
    /// Whether another run's steps are woven in.
    weaves: bool,
    /// The words that say what happens, or the other run's command.
    what: Vec<Bytes>,
    lines: Vec<Bytes>,
}

/// The number that a word is, if it is one.
fn numeral(word: &[u8]) -> Option<u64> {
    std::str::from_utf8(word).ok()?.parse::<u64>().ok()
}

fn copied(alloc: Global, words: &[Bytes]) -> Result<Vec<Bytes>, Fail> {
    let mut copy = Vec::new(alloc);
    for word in words {
        copy.push(Bytes::from_slice(alloc, word.as_slice())?)?;
    }
    Ok(copy)
}

impl Sweep {
    /// How many times, and `weave` and a command; or what happens.
    fn of(alloc: Global, times: Option<u64>, words: &[Bytes]) -> Result<Sweep, Fail> {
        let weaves = word(words, 0)? == b"weave".as_slice();
        let what = copied(alloc, from(words, if weaves { 1 } else { 0 }))?;
        let lines = Vec::new(alloc);
        Ok(Sweep {
            alloc,
            times,
            weaves,
            what,
            lines,
        })
    }

    /// By the words of its first line.
    pub(crate) fn new(alloc: Global, words: &[Bytes]) -> Result<Sweep, Fail> {
        let times = numeral(word(words, 1)?);
        let words = from(words, if times.is_some() { 2 } else { 1 });
        Sweep::of(alloc, times, words)
    }

    pub(crate) fn add(&mut self, line: &[u8]) -> Result<(), Fail> {
        let line = Bytes::from_slice(self.alloc, line)?;
        Ok(self.lines.push(line)?)
    }

    fn woven(&self, given: &Given, time: u64) -> Result<PromptList, Fail> {
        let steps = steps_alone(self.alloc, given, &self.what)?;
        woven(self.alloc, OTHER, &steps, time)
    }

    fn prompt(&self, given: &Given, time: u64) -> Result<PromptList, Fail> {
        let mut prompts = PromptList::new(self.alloc);
        prompts.push(prompt(self.alloc, given, time, &self.what)?)?;
        Ok(prompts)
    }

    /// What happens this time.
    fn prompts(&self, given: &Given, time: u64) -> Result<PromptList, Fail> {
        if self.weaves {
            self.woven(given, time)
        } else {
            self.prompt(given, time)
        }
    }

    /// What the lines show; none where no step failed and the times end with the failures.
    fn shown_by(&self, commands: &mut Commands) -> Result<Option<Bytes>, Fail> {
        let mut shown = Bytes::new(self.alloc);
        for line in self.lines.iter() {
            commands.line(line.as_slice(), &mut shown)?;
            if self.times.is_none() && !commands.has_failed() {
                return Ok(None);
            }
        }
        Ok(Some(shown))
    }

    /// What the lines show this time; none after the last time.
    fn shown_at(&self, given: &Given, time: u64) -> Result<Option<Bytes>, Fail> {
        let prompts = self.prompts(given, time)?;
        let mut commands = Commands::new(self.alloc, given, prompts)?;
        self.shown_by(&mut commands)
    }

    /// The time is told with the last ones, or where steps are woven with any, after which the same was shown.
    fn add_time(&self, stretches: &mut Vec<Stretch>, time: u64, shown: Bytes) -> Result<(), Fail> {
        let last = stretches.len().saturating_sub(1);
        let from = if self.weaves { 0 } else { last };
        add_time(self.alloc, stretches, from, time, shown)
    }

    fn stretches(&self, given: &Given) -> Result<Vec<Stretch>, Fail> {
        let mut stretches = Vec::new(self.alloc);
        for time in 1..=self.times.unwrap_or(STEPS) {
            match self.shown_at(given, time)? {
                Some(shown) => self.add_time(&mut stretches, time, shown)?,
                None => break,
            }
        }
        Ok(stretches)
    }

    /// For each stretch of times after which the same is shown, these and that.
    pub(crate) fn run(&self, given: &Given, told: &mut Bytes) -> Result<(), Fail> {
        let stretches = self.stretches(given)?;
        show_stretches(self.alloc, told, &stretches)
    }
}
