// Whether a path leads to an open file still.
use crate::fault::{Found, HostFault, looked_up};
use std::fs;
use std::fs::{File, Metadata};
use std::os::unix::fs::MetadataExt;

pub(crate) fn are_one(one: &Metadata, other: &Metadata) -> bool {
    one.dev() == other.dev() && one.ino() == other.ino()
}

/// Whether the path leads to this file; Gone where nothing is there.
pub(crate) fn leads_to(
    rt: &HostRuntime,
    path: &str,
    file: &File,
) -> Result<Found<bool>, HostFault> {
    match looked_up(fs::metadata(rt, path))? {
        Found::There(named) => Ok(Found::There(are_one(&named, &file.metadata()?))),
        _ => Ok(Found::Gone),
    }
}
