// The messages of a measure as files, one each, which are read as a command reads them: opened by their whole paths and
// read to their ends.
use crate::rates::{micros_since, tell_things};
use std::alloc::Global;
use std::path::PathBuf;
use std::rt::Clock;
use std::test::Fail;
use std::time::Instant;
use std::{env, fs};

/// A directory for them, which is removed again.
fn directory(rt: &HostRuntime, alloc: Global) -> Result<PathBuf, Fail> {
    Ok(env::temp_dir(rt)?.join(alloc, "mh-bench-messages")?)
}

fn paths(alloc: Global, directory: &PathBuf, count: usize) -> Result<Vec<PathBuf>, Fail> {
    let mut paths = Vec::new(alloc);
    for number in 1..=count {
        let name = format!(in alloc; "{number}")?;
        paths.push(directory.join(alloc, name.as_str())?)?;
    }
    Ok(paths)
}

fn write(rt: &HostRuntime, paths: &[PathBuf], messages: &[String]) -> Result<(), Fail> {
    for (path, message) in paths.iter().zip(messages) {
        fs::write(rt, path, message.as_bytes())?;
    }
    Ok(())
}

/// How many bytes the files have.
fn read(rt: &HostRuntime, paths: &[PathBuf]) -> Result<u64, Fail> {
    let mut all: u64 = 0;
    for path in paths {
        all = all.wrapping_add(fs::read(rt, path)?.len() as u64);
    }
    Ok(all)
}

fn tell_read(rt: &HostRuntime, paths: &[PathBuf]) -> Result<(), Fail> {
    let start = Instant::now(rt)?;
    let all = read(rt, paths)?;
    let taken = micros_since(rt, start)?;
    tell_things(rt, "files read", paths.len() as u64, taken, all)
}

/// Reads the messages from files.
pub fn measure_files(rt: &HostRuntime, alloc: Global, messages: &[String]) -> Result<(), Fail> {
    let directory = directory(rt, alloc)?;
    let paths = paths(alloc, &directory, messages.len())?;
    fs::create_dir(rt, &directory)?;
    write(rt, paths.as_slice(), messages)?;
    tell_read(rt, paths.as_slice())?;
    Ok(fs::remove_dir_all(rt, &directory)?)
}
