// What the model has.
use crate::model::{bytes_of, names_in};
use crate::seen::{Extent, Seen, add_all, seen_directory};
use crate::sites::{ALL, At, DROPS, Outside, Site};
use folder_files::{Slot, World};
use mh_base::{Bytes, Duplicate};
use std::alloc::Global;
use std::test::Fail;

/// What is looked at, and how.
#[derive(Clone, Copy)]
struct Looking<'a> {
    alloc: Global,
    world: &'a World,
    extent: Extent,
}

impl Looking<'_> {
    /// Adds a file's length, and its bytes where they are seen.
    fn add_bytes(&self, seen: &mut Seen, bytes: &Bytes) -> Result<(), Fail> {
        seen.length = bytes.len() as u64;
        if self.extent.has(seen.length) {
            seen.bytes = bytes.duplicate(self.alloc)?;
        }
        Ok(())
    }

    fn slot(&self, at: At, slot: &Slot) -> Result<Seen, Fail> {
        let mut seen = seen_directory(self.alloc, at.label());
        seen.name.extend(slot.name.bytes())?;
        seen.file = Some(slot.file);
        self.add_bytes(&mut seen, bytes_of(self.world, slot.file)?)?;
        Ok(seen)
    }

    fn slots(&self, at: At, slots: &[Slot]) -> Result<Vec<Seen>, Fail> {
        let mut all = Vec::new(self.alloc);
        all.push(seen_directory(self.alloc, at.label()))?;
        for slot in slots {
            all.push(self.slot(at, slot)?)?;
        }
        Ok(all)
    }

    fn directory(&self, site: &Site, at: At) -> Result<Vec<Seen>, Fail> {
        let place = site.place(self.alloc, at)?;
        match names_in(self.alloc, self.world, &place)? {
            Some(slots) => self.slots(at, &slots),
            None => Ok(Vec::new(self.alloc)),
        }
    }

    fn add_drop(&self, drop: &Outside, all: &mut Vec<Seen>) -> Result<(), Fail> {
        if let Some(bytes) = outside_bytes(self.alloc, self.world, drop)? {
            let mut seen = seen_directory(self.alloc, drop.path);
            self.add_bytes(&mut seen, &bytes)?;
            all.push(seen)?;
        }
        Ok(())
    }
}

/// The bytes of a file outside, where it is there.
pub fn outside_bytes(alloc: Global, world: &World, drop: &Outside) -> Result<Option<Bytes>, Fail> {
    let path = drop.file_path(alloc)?;
    let mut drops = world.drops.as_slice().iter();
    match drops.find(|outside| outside.path.same(&path)) {
        Some(outside) => Ok(Some(outside.bytes.duplicate(alloc)?)),
        None => Ok(None),
    }
}

/// All names of all directories that are there, and the drops.
pub fn look(alloc: Global, world: &World, site: &Site, extent: Extent) -> Result<Vec<Seen>, Fail> {
    let looking = Looking {
        alloc,
        world,
        extent,
    };
    let mut all = Vec::new(alloc);
    for at in ALL {
        add_all(&mut all, looking.directory(site, *at)?)?;
    }
    for drop in DROPS {
        looking.add_drop(drop, &mut all)?;
    }
    Ok(all)
}
