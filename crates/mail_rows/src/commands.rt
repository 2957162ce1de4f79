// Commands over a mailbox in memory.
use crate::calls::{Streams, call};
use folder_files::Step;
use folder_room::PromptList;
use mh_base::Bytes;
use row_mailboxes::Given;
use row_rooms::{Scene, steps_of};
use row_text::{from, number, word, words};
use std::alloc::Global;
use std::test::Fail;

/// The run by which a command runs whose steps are woven with those of others.
pub(crate) const OTHER: u128 = 99;

/// A mailbox in memory in which commands run, one after another, each by a run of its own.
#[derive(Drop)]
pub(crate) struct Commands {
    alloc: Global,
    scene: Scene,
    /// What the next command hears, and which pieces of its streams fail.
    streams: Streams,
}

/// What a line asks.
#[derive(Clone, Copy)]
enum Asked {
    Command,
    Input,
    Unheard,
    Unsaid,
    Look,
}

fn asked_by(word: &[u8]) -> Asked {
    match word {
        b"$" | b">" => Asked::Command,
        b"in" => Asked::Input,
        b"in-fails" => Asked::Unheard,
        b"out" => Asked::Unsaid,
        _ => Asked::Look,
    }
}

impl Commands {
    pub(crate) fn new(alloc: Global, given: &Given, prompts: PromptList) -> Result<Commands, Fail> {
        let scene = Scene::new(alloc, given, prompts)?;
        let streams = Streams::new(alloc);
        Ok(Commands {
            alloc,
            scene,
            streams,
        })
    }

    /// Whether a step has failed.
    pub(crate) fn has_failed(&self) -> bool {
        self.scene.room.faults() > 0
    }

    fn call(&mut self, words: &[Bytes], told: &mut Bytes) -> Result<(), Fail> {
        let streams = std::mem::replace(&mut self.streams, Streams::new(self.alloc));
        let run = self.scene.run;
        call(self.alloc, &mut *self.scene.room, run, words, streams, told)?;
        Ok(self.scene.room.end(run)?)
    }

    fn command(&mut self, words: &[Bytes], told: &mut Bytes) -> Result<(), Fail> {
        self.scene.next_run();
        self.call(from(words, 1), told)
    }

    fn hear(&mut self, words: &[Bytes]) -> Result<(), Fail> {
        for word in from(words, 1) {
            self.streams.input.extend(word.as_slice())?;
        }
        Ok(())
    }

    fn hear_not(&mut self, words: &[Bytes]) -> Result<(), Fail> {
        Ok(self.streams.unheard.push(number(word(words, 1)?)?)?)
    }

    fn say_not(&mut self, words: &[Bytes]) -> Result<(), Fail> {
        Ok(self.streams.unsaid.push(number(word(words, 1)?)?)?)
    }

    /// `$` or `>` and a command's words, which it runs; `in` and what its input has, `in-fails` and the number of a
    /// reading of it that is to fail, `out` and that of a piece of its output; or a line that looks at the mailbox, or
    /// makes a step there.
    pub(crate) fn line(&mut self, line: &[u8], told: &mut Bytes) -> Result<(), Fail> {
        let words = words(self.alloc, line)?;
        match asked_by(word(&words, 0)?) {
            Asked::Command => self.command(&words, told),
            Asked::Input => self.hear(&words),
            Asked::Unheard => self.hear_not(&words),
            Asked::Unsaid => self.say_not(&words),
            Asked::Look => self.scene.line(&words, told),
        }
    }
}

/// The steps for which this command asks, where a run of its own makes it alone on what is given.
pub(crate) fn steps_alone(
    alloc: Global,
    given: &Given,
    words: &[Bytes],
) -> Result<Vec<Step>, Fail> {
    let mut commands = Commands::new(alloc, given, PromptList::new(alloc))?;
    commands.scene.run = OTHER;
    commands.call(words, &mut Bytes::new(alloc))?;
    steps_of(alloc, commands.scene.room.history())
}
