// What the system says of the user and the moment.
use crate::lines::{line_with, warn_if_there};
use crate::offset::read_offset;
use mh_base::{Bytes, Text};
use mh_tools::Setting;
use std::alloc::{AllocError, AllocFailed, Global};
use std::env::VarError;
use std::fs::File;
use std::io::{ErrorKind, Read};
use std::time::{SystemTime, UNIX_EPOCH};
use std::{env, io};

/// Why a call could not begin, or not say what was asked.
#[derive(Drop)]
pub enum StartFault {
    NoSetting,
    /// The word at this place behind the program's name, from 1, is no text.
    NoText(usize),
    /// `--wait` without a number of seconds, or with another word in its place.
    NoWait,
    BadWait,
    /// There is no page of help on this word.
    NoHelp(String),
    Output,
    /// The output is a pipe whose reader is gone.
    NoReader,
    Memory,
}

impl From<AllocError> for StartFault {
    fn from(_: AllocError) -> Self {
        StartFault::Memory
    }
}

impl<T: Drop> From<AllocFailed<T>> for StartFault {
    fn from(_: AllocFailed<T>) -> Self {
        StartFault::Memory
    }
}

impl From<io::Error> for StartFault {
    fn from(error: io::Error) -> Self {
        if error.kind() == ErrorKind::OutOfMemory {
            StartFault::Memory
        } else {
            StartFault::NoSetting
        }
    }
}

/// What does not change from one try of a call to the next.
#[derive(Drop)]
pub struct Surroundings {
    pub home: String,
    offset_minutes: i32,
}

/// The last segment of a path.
pub fn last_segment(path: &str) -> &str {
    match path.rsplit_once('/') {
        Some((_, name)) => name,
        None => path,
    }
}

/// A variable of the environment, where it is there.
fn variable(rt: &HostRuntime, name: &str) -> Result<Option<String>, StartFault> {
    match env::var(rt, name) {
        Ok(value) => Ok(Some(value)),
        Err(VarError::NotPresent) => Ok(None),
        Err(VarError::OutOfMemory) => Err(StartFault::Memory),
        Err(_) => Err(StartFault::NoSetting),
    }
}

/// `HOME`, else the current directory; an empty `HOME` counts as missing.
pub fn read_home(rt: &HostRuntime) -> Result<String, StartFault> {
    match variable(rt, "HOME")? {
        Some(home) if !home.is_empty() => Ok(home),
        _ => Ok(String::from_str(rt.alloc(), env::current_dir(rt)?.as_path().as_str())?),
    }
}

/// Says that an offset is not written as one is.
fn warn_of_offset(rt: &HostRuntime, text: &str) {
    let line = line_with(
        rt.alloc(),
        "MH_OFFSET is \"",
        text,
        "\", which is neither +hhmm nor -hhmm: times are in UTC",
    );
    warn_if_there(rt, line.map(Some));
}

/// The minutes of an offset; one that is not written `+hhmm` or `-hhmm` is named, and counts as none.
fn offset_of(rt: &HostRuntime, text: &str) -> i32 {
    match read_offset(text) {
        Some(minutes) => minutes,
        None => {
            warn_of_offset(rt, text);
            0
        }
    }
}

/// `MH_OFFSET` in minutes; zero where it is missing or empty.
fn offset(rt: &HostRuntime) -> Result<i32, StartFault> {
    match variable(rt, "MH_OFFSET")? {
        Some(text) if !text.is_empty() => Ok(offset_of(rt, text.as_str())),
        _ => Ok(0),
    }
}

pub fn read_surroundings(rt: &HostRuntime) -> Result<Surroundings, StartFault> {
    Ok(Surroundings {
        home: read_home(rt)?,
        offset_minutes: offset(rt)?,
    })
}

/// Seconds from 1970-01-01 00:00:00 UTC.
fn now(rt: &HostRuntime) -> Result<i64, StartFault> {
    match SystemTime::now(rt)?.duration_since(UNIX_EPOCH) {
        Ok(since) => Ok(i64::try_from(since.as_secs()).unwrap_or(i64::MAX)),
        Err(_) => Err(StartFault::NoSetting),
    }
}

/// The user's name: the last segment of the home directory, whatever slashes stand behind it.
fn user(alloc: Global, home: &str) -> Result<Text, AllocError> {
    Text::from_str(alloc, last_segment(home.trim_end_matches('/')))
}

/// A run number that no other run has, as far as 16 random bytes can promise.
fn run_number(rt: &HostRuntime) -> Result<u128, StartFault> {
    let mut bytes = [0u8; 16];
    File::open(rt, "/dev/urandom")?.read_exact(&mut bytes)?;
    Ok(u128::from_le_bytes(bytes))
}

impl Surroundings {
    pub fn home_bytes(&self, alloc: Global) -> Result<Bytes, AllocError> {
        Bytes::from_slice(alloc, self.home.as_str().as_bytes())
    }

    /// The setting of a run that begins now.
    pub fn setting(&self, rt: &HostRuntime) -> Result<Setting, StartFault> {
        let user = user(rt.alloc(), self.home.as_str())?;
        let setting = Setting::new(run_number(rt)?, now(rt)?, self.offset_minutes, user);
        setting.ok_or(StartFault::NoSetting)
    }
}
