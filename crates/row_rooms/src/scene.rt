// A mailbox in memory, and the lines that look at it or make a step there.
use crate::answers::show_answer;
use crate::counted::show_counted;
use crate::shown::{show_drop, show_lock, show_place};
use file_plans::attempt;
use folder_room::{PromptList, Room};
use mh_base::{Bytes, Duplicate};
use row_mailboxes::{Given, path, place, step};
use row_text::{from, number, word};
use std::alloc::Global;
use std::test::Fail;

/// A mailbox in memory in which runs act, one after another.
#[derive(Drop)]
pub struct Scene {
    alloc: Global,
    mail: Bytes,
    /// In a box, so that it is let go by one call wherever a scene is.
    pub room: Box<Room>,
    /// The run that acts now.
    pub run: u128,
}

/// What a line asks.
#[derive(Clone, Copy)]
enum Asked {
    Show,
    Drop,
    Lock,
    Count,
    Step,
}

fn asked_by(word: &[u8]) -> Result<Asked, Fail> {
    match word {
        b"show" => Ok(Asked::Show),
        b"drop" => Ok(Asked::Drop),
        b"lock" => Ok(Asked::Lock),
        b"count" => Ok(Asked::Count),
        b"run" => Ok(Asked::Step),
        _ => Err("show, drop, lock, count or run".into()),
    }
}

fn room_of(alloc: Global, given: &Given, prompts: PromptList) -> Result<Box<Room>, Fail> {
    let world = given.world()?;
    let room = Room::new(alloc, world, prompts)?;
    Ok(Box::new(alloc, room)?)
}

impl Scene {
    /// What is given, and what else happens from now on.
    pub fn new(alloc: Global, given: &Given, prompts: PromptList) -> Result<Scene, Fail> {
        let mail = given.mail().duplicate(alloc)?;
        let room = room_of(alloc, given, prompts)?;
        let run = 0;
        Ok(Scene {
            alloc,
            mail,
            room,
            run,
        })
    }

    /// The next run acts from now on.
    pub fn next_run(&mut self) {
        self.run = self.run.wrapping_add(1);
    }

    fn show(&mut self, words: &[Bytes], told: &mut Bytes) -> Result<(), Fail> {
        told.extend(word(words, 1)?)?;
        let place = place(self.alloc, &self.mail, word(words, 1)?)?;
        self.next_run();
        show_place(self.alloc, &mut *self.room, self.run, &place, told)
    }

    fn outside(&mut self, words: &[Bytes], told: &mut Bytes) -> Result<(), Fail> {
        told.extend(word(words, 1)?)?;
        let path = path(self.alloc, word(words, 1)?)?;
        self.next_run();
        show_drop(self.alloc, &mut *self.room, self.run, &path, told)
    }

    fn lock(&mut self, words: &[Bytes], told: &mut Bytes) -> Result<(), Fail> {
        told.extend(word(words, 1)?)?;
        let place = place(self.alloc, &self.mail, word(words, 1)?)?;
        self.next_run();
        show_lock(self.alloc, &mut *self.room, self.run, &place, told)?;
        Ok(self.room.end(self.run)?)
    }

    fn count(&self, told: &mut Bytes) -> Result<(), Fail> {
        show_counted(self.alloc, self.room.history(), self.run, told)
    }

    fn act(&mut self, run: u128, words: &[Bytes], told: &mut Bytes) -> Result<(), Fail> {
        let step = step(self.alloc, &self.mail, words)?;
        let answer = attempt(self.alloc, run, &mut *self.room, step)?;
        show_answer(self.alloc, told, &answer)
    }

    /// A step of a run with its answer, or a run's end.
    fn step(&mut self, words: &[Bytes], told: &mut Bytes) -> Result<(), Fail> {
        let run = u128::from(number(word(words, 1)?)?);
        if word(words, 2)? == b"end".as_slice() {
            return Ok(self.room.end(run)?);
        }
        self.act(run, from(words, 2), told)
    }

    /// `show` and a directory, of which it shows each name with its bytes; `drop` and a file outside, of which it shows
    /// the bytes; `lock` and a directory, of which it tells whether a run gets its lock; `count`, which tells how many
    /// steps the run that acts asked for, and how many of them were locks; or `run`, a run and its step, of which it
    /// tells the answer, or `end`.
    pub fn line(&mut self, words: &[Bytes], told: &mut Bytes) -> Result<(), Fail> {
        match asked_by(word(words, 0)?)? {
            Asked::Show => self.show(words, told),
            Asked::Drop => self.outside(words, told),
            Asked::Lock => self.lock(words, told),
            Asked::Count => self.count(told),
            Asked::Step => self.step(words, told),
        }
    }
}
