// A mailbox in memory and one of real directories, where the same steps are made.
use crate::agreement::Answers;
use crate::by_design::Beside;
use crate::meddled::Meddled;
use crate::open_drops::OpenDrops;
use crate::runs::{End, Run, act};
use crate::sites::Site;
use folder_files::{
    Answer, ChangeList, Directory, DirectoryList, FileList, FilePath, LockList, OutsideList, Place,
    RunList, SlotList, Step, World,
};
use folder_room::{PromptList, Room};
use mh_base::Duplicate;
use std::alloc::Global;
use std::test::Fail;

/// The front of all runs' numbers.
const FRONT: u128 = 0x0123_4567_89ab_cdef_0000_0000_0000_0000;

/// The number of a run, by its place among all that began.
pub fn run_number(place: u64) -> u128 {
    FRONT | u128::from(place)
}

#[derive(Drop)]
pub struct Pair {
    pub alloc: Global,
    pub site: Site,
    /// In boxes, so that each is let go by one call.
    room: Box<Room>,
    runs: Vec<Run>,
    /// How many runs began.
    pub began: u64,
    pub meddled: Meddled,
    pub drops: OpenDrops,
}

fn empty_directory(alloc: Global, place: Place) -> Directory {
    Directory {
        place,
        safe: SlotList::new(alloc),
        pending: ChangeList::new(alloc),
    }
}

/// A home directory and a current one, and no more.
fn empty_world(alloc: Global) -> Result<World, Fail> {
    let mut directories = DirectoryList::new(alloc);
    directories.push(empty_directory(alloc, Place::Home))?;
    directories.push(empty_directory(alloc, Place::Work))?;
    Ok(World {
        directories,
        files: FileList::new(alloc),
        drops: OutsideList::new(alloc),
        locks: LockList::new(alloc),
        ended: RunList::new(alloc),
    })
}

fn room_of(alloc: Global, world: World) -> Result<Box<Room>, Fail> {
    let room = Room::new(alloc, world, PromptList::new(alloc))?;
    Ok(Box::new(alloc, room)?)
}

impl Pair {
    /// Both are empty, and no run began yet.
    pub fn new(alloc: Global, site: Site) -> Result<Pair, Fail> {
        let room = room_of(alloc, empty_world(alloc)?)?;
        Ok(Pair {
            alloc,
            site,
            room,
            runs: Vec::new(alloc),
            began: 0,
            meddled: Meddled::new(alloc),
            drops: OpenDrops::new(alloc),
        })
    }

    pub fn world(&self) -> &World {
        self.room.world()
    }

    /// The model's world as it is now, to be changed by what is no step.
    pub fn copied_world(&self) -> Result<World, Fail> {
        Ok(self.world().duplicate(self.alloc)?)
    }

    /// The model goes on from this world.
    pub fn go_on_from(&mut self, world: World) -> Result<(), Fail> {
        self.room = room_of(self.alloc, world)?;
        Ok(())
    }

    pub fn count_of_runs(&self) -> usize {
        self.runs.len()
    }

    /// The number of the run at this place.
    pub fn run_at(&self, place: usize) -> Result<u128, Fail> {
        match self.runs.get(place) {
            Some(run) => Ok(run.number),
            None => Err("a run".into()),
        }
    }

    fn next_run(&mut self, rt: &HostRuntime) -> Result<Run, Fail> {
        self.began = self.began.saturating_add(1);
        Run::begin(rt, run_number(self.began))
    }

    /// A further run begins.
    pub fn begin_run(&mut self, rt: &HostRuntime) -> Result<(), Fail> {
        let run = self.next_run(rt)?;
        Ok(self.runs.push(run)?)
    }

    /// The run at this place ends, and another begins there.
    pub fn end_run(&mut self, rt: &HostRuntime, place: usize, end: End) -> Result<(), Fail> {
        let next = self.next_run(rt)?;
        let number = self.run_at(place)?;
        if let Some(run) = self.runs.get_mut(place) {
            std::mem::replace(run, next).end(end);
        }
        self.drops.let_go(place);
        Ok(self.room.end(number)?)
    }

    /// All runs end.
    pub fn end_all(self) {
        for run in self.runs {
            run.end(End::Closed);
        }
    }

    fn on_model(&mut self, run: usize, step: &Step) -> Result<Answer, Fail> {
        let number = self.run_at(run)?;
        act(self.alloc, &mut *self.room, number, step)
    }

    fn on_disk(&mut self, place: usize, step: &Step) -> Result<Answer, Fail> {
        match self.runs.get_mut(place) {
            Some(run) => act(self.alloc, &mut *run.files, run.number, step),
            None => Err("a run".into()),
        }
    }

    /// A run has the drop of which it got a piece, and no other any more.
    fn note_piece(&mut self, run: usize, path: &FilePath, answer: &Answer) -> Result<(), Fail> {
        if matches!(answer, Answer::Piece { .. }) {
            return self.drops.take(self.alloc, run, path);
        }
        self.drops.let_go(run);
        Ok(())
    }

    /// What a step on a drop makes of the run's drop.
    fn note_drop(&mut self, run: usize, step: &Step, answer: &Answer) -> Result<(), Fail> {
        match step {
            Step::ReadDrop { path, .. } => self.note_piece(run, path, answer),
            Step::CutDrop(_, _) => {
                self.drops.let_go(run);
                Ok(())
            }
            _ => Ok(()),
        }
    }

    fn by_design(&self, step: &Step) -> Result<Option<Answer>, Fail> {
        let beside = Beside {
            world: self.world(),
            meddled: &self.meddled,
            drops: &self.drops,
        };
        beside.answer(self.alloc, step)
    }

    /// One step on both.
    pub fn act(&mut self, run: usize, step: &Step) -> Result<Answers, Fail> {
        let by_design = self.by_design(step)?;
        let disk = self.on_disk(run, step)?;
        let model = match by_design {
            Some(answer) => answer,
            None => self.on_model(run, step)?,
        };
        self.note_drop(run, step, &disk)?;
        Ok(Answers { model, disk })
    }
}
