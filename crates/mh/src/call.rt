// One call of the top call.
use crate::kept_input::KeptInput;
use crate::outputs::{HeldLine, Output};
use crate::start::{StartFault, Surroundings};
use folder_files::Which;
use host_files::HostFiles;
use mh_base::Bytes;
use mh_tools::{Status, mh};
use std::alloc::Global;
use std::io::Stdin;

/// How a call ended.
#[derive(Drop)]
pub struct CallEnd {
    pub status: Status,
    /// What it said to the error output.
    pub line: Bytes,
    /// What the files say of it.
    pub more: Option<String>,
    /// Whether it wrote anything to the output.
    pub has_written: bool,
    /// Whether the output was a pipe whose reader is gone.
    pub has_no_reader: bool,
}

/// What the files say of a call that ended so.
fn more_of(alloc: Global, files: &HostFiles, status: &Status) -> Option<String> {
    match status {
        Status::Faulted(Which::Files) => files.failure_line(alloc).ok()?,
        Status::Meddled(_, _) => files.meddled_line(alloc).ok()?,
        _ => None,
    }
}

fn open_files(rt: &HostRuntime, around: &Surroundings) -> Result<HostFiles, StartFault> {
    let alloc = rt.alloc();
    Ok(HostFiles::open(rt.clone()?, alloc, around.home_bytes(alloc)?)?)
}

/// Calls a command of these words, as a run of its own.
pub fn call_once(
    rt: &HostRuntime,
    words: &Vec<String>,
    around: &Surroundings,
    input: &mut KeptInput<Stdin>,
) -> Result<CallEnd, StartFault> {
    let alloc = rt.alloc();
    let setting = around.setting(rt)?;
    let mut files = open_files(rt, around)?;
    let mut out = Output::new(rt.stdout());
    let mut err = HeldLine::new(alloc);
    let status = mh(
        alloc, words, &setting, &mut files, input, &mut out, &mut err,
    );
    let more = more_of(alloc, &files, &status);
    files.close();
    Ok(CallEnd {
        status,
        line: err.into_text(),
        more,
        has_written: out.has_taken(),
        has_no_reader: out.has_no_reader(),
    })
}
