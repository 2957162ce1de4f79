// Runs on real directories.
use crate::sites::HOME;
use folder_files::{Answer, Files, Step};
use host_files::HostFiles;
use mh_base::Bytes;
use std::alloc::Global;
use std::test::Fail;

/// A run and its files.
#[derive(Drop)]
pub struct Run {
    pub number: u128,
    pub files: Box<HostFiles>,
}

/// How a run comes to its end.
#[derive(Clone, Copy)]
pub enum End {
    /// It lets its drop go.
    Closed,
    /// It leaves the drop's lock behind.
    Killed,
}

fn files(rt: &HostRuntime) -> Result<Box<HostFiles>, Fail> {
    let home = Bytes::from_slice(rt.alloc(), HOME.as_bytes())?;
    let files = HostFiles::open(rt.clone()?, rt.alloc(), home)?;
    Ok(Box::new(rt.alloc(), files)?)
}

impl Run {
    pub fn begin(rt: &HostRuntime, number: u128) -> Result<Run, Fail> {
        let files = files(rt)?;
        Ok(Run { number, files })
    }

    pub fn end(self, end: End) {
        let Run { number: _, files } = self;
        match end {
            End::Closed => Box::into_inner(files).close(),
            End::Killed => {}
        }
    }
}

/// One step of a run, on whatever files.
pub fn act<F: Files>(alloc: Global, files: &mut F, run: u128, step: &Step) -> Result<Answer, Fail> {
    Ok(files.act(alloc, run, step)?)
}
