// What a person put into the directories by hand: directories and symbolic links where files are asked for.
use folder_files::Place;
use mh_base::Name;
use std::alloc::Global;

/// Where a symbolic link leads.
#[derive(Clone, Copy)]
pub enum Leads {
    Nowhere,
    ToDirectory,
    ToFile,
}

pub const ALL_LEADS: &[Leads] = &[Leads::Nowhere, Leads::ToDirectory, Leads::ToFile];

/// A directory under a name.
#[derive(Drop)]
pub struct MadeDirectory {
    pub place: Place,
    pub name: Name,
    pub path: String,
}

/// A symbolic link, which the model has as a file of this number.
#[derive(Clone, Copy)]
pub struct MadeLink {
    pub file: u64,
    pub leads: Leads,
}

#[derive(Drop)]
pub struct Meddled {
    pub directories: Vec<MadeDirectory>,
    pub links: Vec<MadeLink>,
}

impl Meddled {
    pub fn new(alloc: Global) -> Meddled {
        Meddled {
            directories: Vec::new(alloc),
            links: Vec::new(alloc),
        }
    }

    /// Whether this is such a directory's name.
    pub fn has_directory(&self, place: &Place, name: &Name) -> bool {
        self.directories
            .iter()
            .any(|made| made.place.same(place) && made.name.same(name))
    }

    /// Where the link that is this file leads.
    pub fn leads(&self, file: Option<u64>) -> Option<Leads> {
        let file = file?;
        let link = self.links.iter().find(|link| link.file == file)?;
        Some(link.leads)
    }
}
