// What the disk has, by the system's calls alone.
use crate::seen::{Extent, Seen, add_all, seen_directory};
use crate::sites::{ALL, At, DROPS, Outside, Site};
use mh_base::Bytes;
use std::fs::Metadata;
use std::os::unix::fs::MetadataExt;
use std::test::Fail;
use std::{fs, io};

/// The lock of a directory, which is listed once it is there. The model has it as a lock, and as no name.
pub const LOCK: &str = ".mh_lock";

fn names_in(rt: &HostRuntime, path: &str) -> Result<Vec<String>, Fail> {
    let mut names = Vec::new(rt.alloc());
    for entry in fs::read_dir(rt, path)? {
        names.push(String::from_str(rt.alloc(), entry?.file_name())?)?;
    }
    names.sort_unstable_by(|a, b| a.as_str().as_bytes().cmp(b.as_str().as_bytes()));
    Ok(names)
}

fn is_file(what: &io::Result<Metadata>) -> bool {
    match what {
        Ok(what) => what.is_file(),
        Err(_) => false,
    }
}

fn is_directory(what: &io::Result<Metadata>) -> bool {
    match what {
        Ok(what) => what.is_dir(),
        Err(_) => false,
    }
}

/// Where a symbolic link leads, as text.
fn add_link(rt: &HostRuntime, path: &str, seen: &mut Seen) -> Result<(), Fail> {
    let target = fs::read_link(rt, path)?;
    seen.bytes.extend(target.as_str().as_bytes())?;
    seen.length = seen.bytes.len() as u64;
    Ok(())
}

/// The length of a file, and its bytes where they are seen.
fn add_file(
    rt: &HostRuntime,
    path: &str,
    length: u64,
    extent: Extent,
    seen: &mut Seen,
) -> Result<(), Fail> {
    seen.length = length;
    if extent.has(length) {
        seen.bytes = Bytes::from_vec(fs::read(rt, path)?);
    }
    Ok(())
}

/// What a file has, and of a symbolic link the file to which it leads; where it leads to none, its own text.
fn add_bytes(rt: &HostRuntime, path: &str, extent: Extent, seen: &mut Seen) -> Result<(), Fail> {
    match fs::metadata(rt, path) {
        Ok(what) if what.is_file() => add_file(rt, path, what.len(), extent, seen),
        _ => add_link(rt, path, seen),
    }
}

/// A directory that is looked at.
#[derive(Drop, Clone, Copy)]
struct Looking<'a> {
    rt: &'a HostRuntime,
    at: At,
    directory: &'a str,
    extent: Extent,
}

impl Looking<'_> {
    /// Adds a name, but not that of a directory.
    fn add_name(&self, name: &str, all: &mut Vec<Seen>) -> Result<(), Fail> {
        let directory = self.directory;
        let path = format!(in self.rt.alloc(); "{directory}/{name}")?;
        let what = fs::symlink_metadata(self.rt, path.as_str())?;
        if what.is_dir() || name == LOCK {
            return Ok(());
        }
        let mut seen = seen_directory(self.rt.alloc(), self.at.label());
        seen.name.extend(name.as_bytes())?;
        seen.file = Some(what.ino());
        add_bytes(self.rt, path.as_str(), self.extent, &mut seen)?;
        Ok(all.push(seen)?)
    }

    fn names(&self) -> Result<Vec<Seen>, Fail> {
        let mut all = Vec::new(self.rt.alloc());
        all.push(seen_directory(self.rt.alloc(), self.at.label()))?;
        for name in names_in(self.rt, self.directory)? {
            self.add_name(name.as_str(), &mut all)?;
        }
        Ok(all)
    }
}

fn seen_at(rt: &HostRuntime, site: &Site, at: At, extent: Extent) -> Result<Vec<Seen>, Fail> {
    let path = site.path(rt.alloc(), at)?;
    if !is_directory(&fs::metadata(rt, path.as_str())) {
        return Ok(Vec::new(rt.alloc()));
    }
    let directory = path.as_str();
    let looking = Looking {
        rt,
        at,
        directory,
        extent,
    };
    looking.names()
}

fn see_drop(
    rt: &HostRuntime,
    drop: &Outside,
    extent: Extent,
    all: &mut Vec<Seen>,
) -> Result<(), Fail> {
    if !is_file(&fs::metadata(rt, drop.path)) {
        return Ok(());
    }
    let mut seen = seen_directory(rt.alloc(), drop.path);
    add_bytes(rt, drop.path, extent, &mut seen)?;
    Ok(all.push(seen)?)
}

/// All names of all directories that are there, and the drops.
pub fn look(rt: &HostRuntime, site: &Site, extent: Extent) -> Result<Vec<Seen>, Fail> {
    let mut all = Vec::new(rt.alloc());
    for at in ALL {
        add_all(&mut all, seen_at(rt, site, *at, extent)?)?;
    }
    for drop in DROPS {
        see_drop(rt, drop, extent, &mut all)?;
    }
    Ok(all)
}
