// The paths of places, names and outside files.
use crate::fault::{HostFault, fault};
use folder_files::{FilePath, Place};
use mh_base::{Bytes, Name};
use std::alloc::Global;
use std::str;

/// The home directory's path.
#[derive(Drop)]
pub(crate) struct Paths {
    home: Bytes,
}

/// A path's text; a path that is no UTF-8 is a fault.
pub(crate) fn text(bytes: &[u8]) -> Result<&str, HostFault> {
    match str::from_utf8(bytes) {
        Ok(text) => Ok(text),
        Err(_) => Err(fault("a path that is no UTF-8")),
    }
}

/// A name below a directory; the empty path is the current directory.
pub(crate) fn below(alloc: Global, base: &str, name: &str) -> Result<String, HostFault> {
    let base = if base.is_empty() { "." } else { base };
    let room = base.len().saturating_add(name.len()).saturating_add(1);
    let mut path = String::with_capacity(alloc, room)?;
    path.push_str(base)?;
    if !path.ends_with('/') {
        path.push('/')?;
    }
    path.push_str(name)?;
    Ok(path)
}

/// The path of a directory with one slash where several stand, and none at its end.
fn tidied(alloc: Global, path: String) -> Result<String, HostFault> {
    if path.contains("//") || path.ends_with('/') {
        joined(alloc, path.as_str())
    } else {
        Ok(path)
    }
}

/// The segments of a path with one slash between them.
fn joined(alloc: Global, path: &str) -> Result<String, HostFault> {
    let mut tidy = String::new(alloc);
    if path.starts_with('/') {
        tidy.push('/')?;
    }
    for segment in path.split('/') {
        if !segment.is_empty() {
            if !tidy.is_empty() && !tidy.ends_with('/') {
                tidy.push('/')?;
            }
            tidy.push_str(segment)?;
        }
    }
    Ok(tidy)
}

impl Paths {
    pub(crate) fn new(home: Bytes) -> Paths {
        Paths { home }
    }

    fn from_home(&self, alloc: Global, path: &str) -> Result<String, HostFault> {
        if path.starts_with('/') {
            Ok(String::from_str(alloc, path)?)
        } else {
            below(alloc, text(self.home.as_slice())?, path)
        }
    }

    /// A mail directory.
    fn mail(&self, alloc: Global, path: &Bytes) -> Result<String, HostFault> {
        let path = self.from_home(alloc, text(path.as_slice())?)?;
        tidied(alloc, path)
    }

    /// How long the path of this place's mail directory is; of another place, its own path.
    pub(crate) fn mail_length(&self, alloc: Global, place: &Place) -> Result<usize, HostFault> {
        let mail = match place {
            Place::Folder(path, _) => self.mail(alloc, path)?,
            other => self.place(alloc, other)?,
        };
        Ok(mail.len())
    }

    pub(crate) fn place(&self, alloc: Global, place: &Place) -> Result<String, HostFault> {
        match place {
            Place::Home => {
                let home = String::from_str(alloc, text(self.home.as_slice())?)?;
                tidied(alloc, home)
            }
            Place::Work => Ok(String::from_str(alloc, ".")?),
            Place::Mail(path) => self.mail(alloc, path),
            Place::Folder(path, name) => {
                below(
                    alloc,
                    self.mail(alloc, path)?.as_str(),
                    name.text().as_str(),
                )
            }
        }
    }

    pub(crate) fn entry(
        &self,
        alloc: Global,
        place: &Place,
        name: &Name,
    ) -> Result<String, HostFault> {
        let place = self.place(alloc, place)?;
        below(alloc, place.as_str(), text(name.bytes())?)
    }

    pub(crate) fn file(&self, alloc: Global, path: &FilePath) -> Result<String, HostFault> {
        let text = text(path.text.as_slice())?;
        if path.home {
            self.from_home(alloc, text)
        } else {
            Ok(String::from_str(alloc, text)?)
        }
    }
}
