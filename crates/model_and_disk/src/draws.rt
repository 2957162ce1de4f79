// Steps that are drawn.
use crate::dice::Dice;
use crate::model::{bytes_of, led, names_in};
use crate::model_look::outside_bytes;
use crate::names::{any_name, held_name, number_name, take_names, temp_name};
use crate::pair::run_number;
use crate::sites::{ALL, DROPS, MISSING, Outside, Site};
use crate::texts::{limit, near, near_length, text};
use folder_files::{Place, Step, World};
use mh_base::{Duplicate, Name};
use std::alloc::Global;
use std::test::Fail;

/// What a draw looks at.
#[derive(Clone, Copy)]
pub struct Scene<'a> {
    pub alloc: Global,
    pub site: Site,
    pub world: &'a World,
    /// The number of the run whose step is drawn.
    pub run: u128,
    /// How many runs began.
    pub began: u64,
}

impl Scene<'_> {
    fn place(&self, dice: &mut Dice) -> Result<Place, Fail> {
        self.site.place(self.alloc, dice.one_of(ALL)?)
    }

    /// The run after which a name is called: mostly the own one.
    fn named_run(&self, dice: &mut Dice) -> u128 {
        if dice.one_in(3) {
            run_number(dice.below(self.began).saturating_add(1))
        } else {
            self.run
        }
    }

    fn any(&self, dice: &mut Dice) -> Result<Name, Fail> {
        let run = self.named_run(dice);
        any_name(self.alloc, dice, run)
    }

    /// A name that is there, where there is one.
    fn known(&self, dice: &mut Dice, place: &Place) -> Result<Name, Fail> {
        let Some(slots) = names_in(self.alloc, self.world, place)? else {
            return self.any(dice);
        };
        let number = dice.place(slots.len());
        match slots.get(number) {
            Some(slot) => Ok(slot.name.duplicate(self.alloc)?),
            None => self.any(dice),
        }
    }

    /// Mostly a name that is there.
    fn likely(&self, dice: &mut Dice, place: &Place) -> Result<Name, Fail> {
        if dice.one_in(3) {
            self.any(dice)
        } else {
            self.known(dice, place)
        }
    }

    /// How long the file of a name is; 0 where there is none.
    fn length(&self, place: &Place, name: &Name) -> Result<u64, Fail> {
        match led(self.alloc, self.world, place, name)? {
            Some(file) => Ok(bytes_of(self.world, file)?.len() as u64),
            None => Ok(0),
        }
    }

    fn read(&self, dice: &mut Dice) -> Result<Step, Fail> {
        let place = self.place(dice)?;
        let name = self.likely(dice, &place)?;
        let most = if dice.one_in(2) {
            near(dice, self.length(&place, &name)?)
        } else {
            limit(dice)?
        };
        Ok(Step::Read(place, name, most))
    }

    fn create(&self, dice: &mut Dice) -> Result<Step, Fail> {
        let name = if dice.one_in(2) {
            temp_name(self.alloc, dice, self.run)?
        } else {
            self.any(dice)?
        };
        let bytes = text(self.alloc, dice)?;
        Ok(Step::Create(self.place(dice)?, name, bytes))
    }

    fn sync_file(&self, dice: &mut Dice) -> Result<Step, Fail> {
        let place = self.place(dice)?;
        let name = self.likely(dice, &place)?;
        Ok(Step::SyncFile(place, name))
    }

    fn unlink(&self, dice: &mut Dice) -> Result<Step, Fail> {
        let place = self.place(dice)?;
        let name = self.likely(dice, &place)?;
        Ok(Step::Unlink(place, name))
    }

    /// What is mostly linked to a number, or any name.
    fn link_from(&self, dice: &mut Dice, place: &Place) -> Result<Name, Fail> {
        match dice.below(7) {
            0 => temp_name(self.alloc, dice, self.run),
            1 => {
                let run = self.named_run(dice);
                held_name(self.alloc, dice, run)
            }
            _ => self.likely(dice, place),
        }
    }

    fn link(&self, dice: &mut Dice) -> Result<Step, Fail> {
        let place = self.place(dice)?;
        let from = self.link_from(dice, &place)?;
        let to = if dice.one_in(2) {
            number_name(self.alloc, dice)?
        } else {
            self.likely(dice, &place)?
        };
        Ok(Step::Link(place, from, to))
    }

    /// A message is held aside by its run.
    fn take(&self, dice: &mut Dice) -> Result<Step, Fail> {
        let names = take_names(self.alloc, dice, self.run)?;
        Ok(Step::Rename(self.place(dice)?, names.from, names.to))
    }

    fn rename(&self, dice: &mut Dice) -> Result<Step, Fail> {
        if dice.one_in(3) {
            return self.take(dice);
        }
        let place = self.place(dice)?;
        let from = self.likely(dice, &place)?;
        let to = self.likely(dice, &place)?;
        Ok(Step::Rename(place, from, to))
    }

    fn outside(&self, dice: &mut Dice) -> Result<Outside, Fail> {
        if dice.one_in(10) {
            dice.one_of(MISSING)
        } else {
            dice.one_of(DROPS)
        }
    }

    fn read_file(&self, dice: &mut Dice) -> Result<Step, Fail> {
        let path = self.outside(dice)?.file_path(self.alloc)?;
        Ok(Step::ReadFile(path, limit(dice)?))
    }

    fn read_drop(&self, dice: &mut Dice) -> Result<Step, Fail> {
        let path = self.outside(dice)?.file_path(self.alloc)?;
        let from = if dice.one_in(2) {
            0
        } else {
            near_length(dice)?
        };
        let most = limit(dice)?;
        Ok(Step::ReadDrop { path, from, most })
    }

    /// A length at which a drop is cut: mostly its own.
    fn cut_length(&self, dice: &mut Dice, drop: &Outside) -> Result<u64, Fail> {
        if dice.one_in(4) {
            return near_length(dice);
        }
        match outside_bytes(self.alloc, self.world, drop)? {
            Some(bytes) => Ok(bytes.len() as u64),
            None => Ok(0),
        }
    }

    fn cut_drop(&self, dice: &mut Dice) -> Result<Step, Fail> {
        let drop = self.outside(dice)?;
        let length = self.cut_length(dice, &drop)?;
        Ok(Step::CutDrop(drop.file_path(self.alloc)?, length))
    }

    /// A step on a name.
    fn on_name(&self, dice: &mut Dice) -> Result<Step, Fail> {
        match dice.below(19) {
            0..=3 => self.read(dice),
            4..=7 => self.create(dice),
            8..=9 => self.sync_file(dice),
            10..=13 => self.link(dice),
            14..=16 => self.rename(dice),
            _ => self.unlink(dice),
        }
    }

    /// A step on a file outside.
    fn on_outside(&self, dice: &mut Dice) -> Result<Step, Fail> {
        match dice.below(4) {
            0 => self.read_file(dice),
            1 => self.cut_drop(dice),
            _ => self.read_drop(dice),
        }
    }

    /// A step on a directory.
    fn on_directory(&self, dice: &mut Dice) -> Result<Step, Fail> {
        let place = self.place(dice)?;
        match dice.below(7) {
            0..=1 => Ok(Step::List(place)),
            2 => Ok(Step::MakeFolder(place)),
            3 => Ok(Step::SyncFolder(place)),
            4..=5 => Ok(Step::Lock(place)),
            _ => Ok(Step::Unlock(place)),
        }
    }

    /// A step of any kind.
    pub fn step(&self, dice: &mut Dice) -> Result<Step, Fail> {
        match dice.below(30) {
            0..=18 => self.on_name(dice),
            19..=25 => self.on_directory(dice),
            _ => self.on_outside(dice),
        }
    }
}
