// Files that are made.
use std::fs::{File, OpenOptions};
use std::io;
use std::os::unix::fs::OpenOptionsExt;

/// A new file, which is its owner's alone.
pub(crate) fn create_new(rt: &HostRuntime, path: &str) -> io::Result<File> {
    let mut options = OpenOptions::new();
    options.read(true);
    options.write(true);
    options.create_new(true);
    options.mode(0o600);
    options.open(rt, path)
}
