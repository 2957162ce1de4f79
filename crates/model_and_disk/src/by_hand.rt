// What happens to a pair beside the steps of runs: mail is delivered, drops go away, and a person makes directories and
// links by hand.
use crate::meddled::{Leads, MadeDirectory, MadeLink};
use crate::model::{directory_place, free_id, led};
use crate::model_look::outside_bytes;
use crate::pair::Pair;
use crate::sites::{At, Outside};
use folder_files::{self as files, Change, File, Place, World};
use mh_base::{Bytes, Duplicate, Name};
use std::alloc::Global;
use std::fs::OpenOptions;
use std::io::Write;
use std::os::unix::fs::symlink;
use std::test::Fail;
use std::{fs, str};

/// Where links to files lead, from `trial/work`.
pub const LETTER: &str = "../elsewhere/letter";

/// What stands there.
pub const LETTER_TEXT: &[u8] = b"Subject: a letter\n";

/// Where links to nothing lead.
const NOWHERE: &str = "no/such/file";

/// Appends to a file that the model has.
fn append(rt: &HostRuntime, path: &str, piece: &Bytes) -> Result<(), Fail> {
    let mut options = OpenOptions::new();
    options.append(true);
    options.create(true);
    Ok(options.open(rt, path)?.write_all(piece.as_slice())?)
}

/// The world with this piece behind the file's bytes.
fn grown(alloc: Global, mut world: World, drop: &Outside, piece: &Bytes) -> Result<World, Fail> {
    let path = drop.file_path(alloc)?;
    let place = world
        .drops
        .as_slice()
        .iter()
        .position(|outside| outside.path.same(&path));
    match place {
        Some(place) if place < world.drops.len() => {
            world.drops.get_mut(place).bytes.extend(piece.as_slice())?;
        }
        _ => {
            let bytes = piece.duplicate(alloc)?;
            world.drops.push(files::Outside { path, bytes })?;
        }
    }
    Ok(world)
}

/// The world without this file.
fn without(alloc: Global, mut world: World, drop: &Outside) -> Result<World, Fail> {
    let path = drop.file_path(alloc)?;
    let mut others = files::OutsideList::new(alloc);
    for outside in world.drops.as_slice() {
        if !outside.path.same(&path) {
            others.push(outside.duplicate(alloc)?)?;
        }
    }
    world.drops = others;
    Ok(world)
}

impl Pair {
    /// Mail is delivered. A drop that isn't there is made, as a link where that is asked for.
    pub fn grow(
        &mut self,
        rt: &HostRuntime,
        drop: &Outside,
        piece: &Bytes,
        as_link: bool,
    ) -> Result<(), Fail> {
        let is_there = outside_bytes(self.alloc, self.world(), drop)?.is_some();
        if as_link && !is_there {
            symlink(rt, drop.link_text, drop.path)?;
        }
        append(rt, drop.path, piece)?;
        let world = self.copied_world()?;
        self.go_on_from(grown(self.alloc, world, drop, piece)?)
    }

    fn forget(&mut self, drop: &Outside, bytes: &Bytes) -> Result<(), Fail> {
        let path = drop.file_path(self.alloc)?;
        self.drops.leave(self.alloc, &path, bytes)?;
        let world = self.copied_world()?;
        self.go_on_from(without(self.alloc, world, drop)?)
    }

    /// A drop goes away, where it is there: whether it was.
    pub fn go_away(&mut self, rt: &HostRuntime, drop: &Outside) -> Result<bool, Fail> {
        let Some(bytes) = outside_bytes(self.alloc, self.world(), drop)? else {
            return Ok(false);
        };
        fs::remove_file(rt, drop.path)?;
        let _ = fs::remove_file(rt, drop.link_path);
        self.forget(drop, &bytes)?;
        Ok(true)
    }

    /// The path of a name that is free, in a directory that is there.
    fn free_path(&self, at: At, place: &Place, name: &Name) -> Result<Option<String>, Fail> {
        let Ok(text) = str::from_utf8(name.bytes()) else {
            return Ok(None);
        };
        let is_taken = led(self.alloc, self.world(), place, name)?.is_some()
            || self.meddled.has_directory(place, name);
        if is_taken || directory_place(self.world(), place).is_none() {
            return Ok(None);
        }
        let directory = self.site.path(self.alloc, at)?;
        Ok(Some(format!(in self.alloc; "{directory}/{text}")?))
    }

    /// A directory by hand, where the name is free: whether it was.
    pub fn make_directory(&mut self, rt: &HostRuntime, at: At, name: Name) -> Result<bool, Fail> {
        let place = self.site.place(self.alloc, at)?;
        let Some(path) = self.free_path(at, &place, &name)? else {
            return Ok(false);
        };
        fs::create_dir(rt, path.as_str())?;
        self.meddled
            .directories
            .push(MadeDirectory { place, name, path })?;
        Ok(true)
    }

    /// The directory by hand at this place goes.
    pub fn remove_directory(&mut self, rt: &HostRuntime, number: usize) -> Result<bool, Fail> {
        if number >= self.meddled.directories.len() {
            return Ok(false);
        }
        let made = self.meddled.directories.swap_remove(number);
        fs::remove_dir(rt, made.path.as_str())?;
        Ok(true)
    }

    /// The model has a link as a file with the bytes to which it leads, or else its own.
    fn add_link(
        &mut self,
        place: &Place,
        name: Name,
        leads: Leads,
        bytes: &[u8],
    ) -> Result<(), Fail> {
        let mut world = self.copied_world()?;
        let file = free_id(&world);
        let bytes = Bytes::from_slice(self.alloc, bytes)?;
        let safe = true;
        world.files.push(File {
            id: file,
            bytes,
            safe,
        })?;
        if let Some(number) = directory_place(&world, place) {
            if number < world.directories.len() {
                world
                    .directories
                    .get_mut(number)
                    .pending
                    .push(Change::Set(name, file))?;
            }
        }
        self.meddled.links.push(MadeLink { file, leads })?;
        self.go_on_from(world)
    }

    /// A symbolic link by hand, where the name is free: whether it was.
    pub fn make_link(
        &mut self,
        rt: &HostRuntime,
        at: At,
        name: Name,
        leads: Leads,
    ) -> Result<bool, Fail> {
        let place = self.site.place(self.alloc, at)?;
        let Some(path) = self.free_path(at, &place, &name)? else {
            return Ok(false);
        };
        match leads {
            Leads::Nowhere => {
                symlink(rt, NOWHERE, path.as_str())?;
                self.add_link(&place, name, leads, NOWHERE.as_bytes())?;
            }
            Leads::ToDirectory => {
                symlink(rt, ".", path.as_str())?;
                self.add_link(&place, name, leads, b".")?;
            }
            Leads::ToFile => {
                let letter = fs::canonicalize(rt, LETTER)?;
                symlink(rt, letter.as_str(), path.as_str())?;
                self.add_link(&place, name, leads, LETTER_TEXT)?;
            }
        }
        Ok(true)
    }
}
