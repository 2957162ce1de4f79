// What the last listing of a directory told of its names.
use crate::fault::{Found, HostFault, looked_up, must_be_there};
use crate::names::{OpenDirectory, names_in};
use crate::paths::{Paths, below, text};
use folder_files::Place;
use mh_base::{Duplicate, Name, NameList};
use std::alloc::{AllocError, Global};
use std::fs;

/// A name that is no directory's, and the length of a plain file.
#[derive(Drop)]
struct ListedName {
    name: Name,
    length: Option<u64>,
}

/// What the directory that was listed last told of its names, in byte order, where each was asked what it is. A name
/// may have changed since.
#[derive(Drop)]
pub(crate) struct LastListing {
    place: Place,
    directory: String,
    asked: Vec<ListedName>,
}

/// The path of a name, and the length of a plain file that was listed there.
#[derive(Drop)]
pub(crate) struct ListedPath {
    pub(crate) path: String,
    pub(crate) length: Option<u64>,
}

/// A listing, and the names for its answer.
#[derive(Drop)]
pub(crate) struct Listed {
    pub(crate) listing: LastListing,
    pub(crate) names: NameList,
}

/// All names, and whether none is a directory's.
#[derive(Drop)]
struct AllNames {
    names: Vec<Name>,
    are_flat: bool,
}

/// Lists an open directory. Its links are counted again afterwards: a subdirectory may have come.
fn all_names(
    rt: &HostRuntime,
    alloc: Global,
    path: &str,
    directory: OpenDirectory,
) -> Result<AllNames, HostFault> {
    let counts = directory.has_two_links()? && directory.is_counted_above(rt, alloc, path)?;
    let mut names = names_in(rt, alloc, path)?;
    names.sort_unstable_by(|a, b| a.bytes().cmp(b.bytes()));
    let are_flat = counts && directory.has_two_links()?;
    Ok(AllNames { names, are_flat })
}

/// A name with its length, unless it is a directory's; one that went away since it was listed is none.
fn asked_name(
    rt: &HostRuntime,
    alloc: Global,
    directory: &str,
    name: Name,
) -> Result<Option<ListedName>, HostFault> {
    let path = below(alloc, directory, text(name.bytes())?)?;
    let length = match looked_up(fs::symlink_metadata(rt, path.as_str()))? {
        Found::There(what) if what.is_dir() => return Ok(None),
        Found::There(what) if what.is_file() => Some(what.len()),
        _ => None,
    };
    Ok(Some(ListedName { name, length }))
}

fn ask_names(
    rt: &HostRuntime,
    alloc: Global,
    directory: &str,
    names: Vec<Name>,
) -> Result<Vec<ListedName>, HostFault> {
    let mut asked = Vec::new(alloc);
    for name in names {
        if let Some(name) = asked_name(rt, alloc, directory, name)? {
            asked.push(name)?;
        }
    }
    Ok(asked)
}

fn names_of(alloc: Global, asked: &[ListedName]) -> Result<NameList, HostFault> {
    let mut names = NameList::new(alloc);
    for listed in asked {
        names.push(listed.name.duplicate(alloc)?)?;
    }
    Ok(names)
}

/// A listing that knows nothing of its names.
fn unasked(alloc: Global, place: Place, directory: String) -> LastListing {
    LastListing {
        place,
        directory,
        asked: Vec::new(alloc),
    }
}

fn listed_of(
    rt: &HostRuntime,
    alloc: Global,
    place: Place,
    directory: String,
    all: AllNames,
) -> Result<Listed, HostFault> {
    if all.are_flat {
        return Ok(Listed {
            listing: unasked(alloc, place, directory),
            names: NameList::from_vec(all.names),
        });
    }
    let asked = ask_names(rt, alloc, directory.as_str(), all.names)?;
    let names = names_of(alloc, asked.as_slice())?;
    let listing = LastListing {
        place,
        directory,
        asked,
    };
    Ok(Listed { listing, names })
}

impl LastListing {
    /// Nothing was listed yet.
    pub(crate) fn new(alloc: Global) -> Result<LastListing, AllocError> {
        Ok(unasked(alloc, Place::Work, String::from_str(alloc, ".")?))
    }

    /// Lists a directory, all but its directories. Where its count of links says that it has none, no name is asked.
    pub(crate) fn read(
        rt: &HostRuntime,
        alloc: Global,
        paths: &Paths,
        place: &Place,
    ) -> Result<Found<Listed>, HostFault> {
        let path = paths.place(alloc, place)?;
        let opened = match OpenDirectory::open(rt, alloc, path.as_str())? {
            Found::Gone => return Ok(Found::Gone),
            found => must_be_there(found)?,
        };
        let all = all_names(rt, alloc, path.as_str(), opened)?;
        let listed = listed_of(rt, alloc, place.duplicate(alloc)?, path, all)?;
        Ok(Found::There(listed))
    }

    /// How long the plain file of this name was, if it was asked.
    fn length(&self, name: &Name) -> Option<u64> {
        let found = self
            .asked
            .binary_search_by(|listed| listed.name.bytes().cmp(name.bytes()));
        self.asked.get(found.ok()?)?.length
    }

    /// The path of a name, of which the listing knows more where it is of this directory.
    pub(crate) fn path(
        &self,
        alloc: Global,
        paths: &Paths,
        place: &Place,
        name: &Name,
    ) -> Result<ListedPath, HostFault> {
        if !self.place.same(place) {
            return Ok(ListedPath {
                path: paths.entry(alloc, place, name)?,
                length: None,
            });
        }
        Ok(ListedPath {
            path: below(alloc, self.directory.as_str(), text(name.bytes())?)?,
            length: self.length(name),
        })
    }
}
