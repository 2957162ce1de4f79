// The names in a directory, as the system gives them.
use crate::fault::{Found, HostFault, looked_up};
use crate::paths::below;
use mh_base::{Bytes, Name};
use std::alloc::Global;
use std::fs;
use std::fs::File;
use std::os::unix::fs::MetadataExt;

/// An open directory.
#[derive(Drop)]
pub(crate) struct OpenDirectory {
    file: File,
}

impl OpenDirectory {
    /// The slash keeps what is no directory from being opened: opening a pipe would wait.
    pub(crate) fn open(
        rt: &HostRuntime,
        alloc: Global,
        path: &str,
    ) -> Result<Found<OpenDirectory>, HostFault> {
        let path = below(alloc, path, "")?;
        match looked_up(File::open(rt, path.as_str()))? {
            Found::There(file) => Ok(Found::There(OpenDirectory { file })),
            Found::Gone => Ok(Found::Gone),
            Found::Exists => Ok(Found::Exists),
        }
    }

    /// Whether the directory's count of links is two, which says that it has no subdirectory where its file system
    /// counts those.
    pub(crate) fn has_two_links(&self) -> Result<bool, HostFault> {
        Ok(self.file.metadata()?.nlink() == 2)
    }

    /// Whether the directory above, on the same file system, counts its subdirectories: it has one at least.
    pub(crate) fn is_counted_above(
        &self,
        rt: &HostRuntime,
        alloc: Global,
        path: &str,
    ) -> Result<bool, HostFault> {
        let above = below(alloc, path, "..")?;
        match fs::metadata(rt, above.as_str()) {
            Ok(above) => Ok(above.nlink() > 2 && above.dev() == self.file.metadata()?.dev()),
            Err(_) => Ok(false),
        }
    }
}

fn push_name(alloc: Global, names: &mut Vec<Name>, name: &str) -> Result<(), HostFault> {
    if let Some(name) = Name::new(Bytes::from_slice(alloc, name.as_bytes())?) {
        names.push(name)?;
    }
    Ok(())
}

/// All names but the two of the directory itself and the one above it. One that is no UTF-8 is a fault.
pub(crate) fn names_in(
    rt: &HostRuntime,
    alloc: Global,
    path: &str,
) -> Result<Vec<Name>, HostFault> {
    let mut names = Vec::new(alloc);
    for entry in fs::read_dir(rt, path)? {
        push_name(alloc, &mut names, entry?.file_name())?;
    }
    Ok(names)
}
