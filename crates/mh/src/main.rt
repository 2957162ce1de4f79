//! The program `mh`: what the system says of the user and the moment, and the top call; what it says behind the end of a
//! call, and of itself.
#![tactic(auto)]

mod call;
mod ending;
mod help;
#[cfg(test)]
mod input_tests;
mod kept_input;
mod lines;
mod mail_directory;
mod offset;
mod outputs;
mod profile;
mod reading;
mod start;
mod streams;
mod switches;
mod usage;
mod version;
mod waiting;
mod words;

use ending::{name_no_message, tell_end};
use lines::{line_of, line_with, warn_if_there};
use start::{StartFault, read_surroundings};
use std::alloc::AllocError;
use std::process::ExitCode;
use streams::fill_closed;
use waiting::{Waiting, call, take_wait};
use words::{CallWords, is_pick, read_words};

/// The exit statuses of a call that could not begin, by what it was called with and by the system.
const REFUSED: u8 = 1;

const FAULT: u8 = 2;

const NO_MEMORY: u8 = 5;

/// Runs the command of the words.
fn run(rt: &HostRuntime, waiting: &Waiting) -> Result<u8, StartFault> {
    let around = read_surroundings(rt)?;
    let end = call(rt, waiting, &around)?;
    tell_end(rt, around.home.as_str(), &waiting.words, &end);
    Ok(end.status.exit())
}

fn answer_words(rt: &HostRuntime, words: Vec<String>) -> Result<u8, StartFault> {
    let waiting = take_wait(rt.alloc(), words)?;
    match help::asked(rt.alloc(), &waiting.words)? {
        Some(help) => {
            help::tell(rt, help)?;
            Ok(0)
        }
        None => run(rt, &waiting),
    }
}

fn answer(rt: &HostRuntime, call: CallWords) -> Result<u8, StartFault> {
    let _streams = fill_closed(rt)?;
    match call.no_text {
        Some(place) => Err(StartFault::NoText(place)),
        None => answer_words(rt, call.words),
    }
}

/// The number of a word, as a line has it.
fn line_on_place(rt: &HostRuntime, place: usize) -> Result<String, AllocError> {
    let number = format!(in rt.alloc(); "{place}")?;
    line_with(rt.alloc(), "word ", number.as_str(), " is no UTF-8 text")
}

/// The line on why a call could not begin; where the reader of the output is gone nobody wants one.
fn line_on(rt: &HostRuntime, fault: &StartFault) -> Result<Option<String>, AllocError> {
    let alloc = rt.alloc();
    match fault {
        StartFault::NoReader => Ok(None),
        StartFault::NoText(place) => Ok(Some(line_on_place(rt, *place)?)),
        StartFault::NoHelp(word) => {
            let line = line_with(
                alloc,
                "no help on ",
                word.as_str(),
                "; \"mh help\" lists the commands",
            );
            Ok(Some(line?))
        }
        other => Ok(Some(line_of(alloc, text_on(other))?)),
    }
}

/// The same where it is one text.
fn text_on(fault: &StartFault) -> &'static str {
    match fault {
        StartFault::NoWait => "missing value: --wait",
        StartFault::BadWait => "bad value: --wait",
        StartFault::Output => "fault of output",
        StartFault::Memory => "no memory",
        _ => "no setting",
    }
}

fn status_of(fault: &StartFault) -> u8 {
    match fault {
        StartFault::NoWait | StartFault::BadWait | StartFault::NoHelp(_) => REFUSED,
        StartFault::Memory => NO_MEMORY,
        _ => FAULT,
    }
}

/// Says why a call could not begin; where not even that can be written the status says it.
fn give_up(rt: &HostRuntime, is_pick: bool, fault: &StartFault) -> ExitCode {
    if is_pick {
        name_no_message(rt);
    }
    warn_if_there(rt, line_on(rt, fault));
    ExitCode::from(status_of(fault))
}

fn ended(rt: &HostRuntime, is_pick: bool, answer: Result<u8, StartFault>) -> ExitCode {
    match answer {
        Ok(status) => ExitCode::from(status),
        Err(fault) => give_up(rt, is_pick, &fault),
    }
}

fn main(rt: HostRuntime) -> ExitCode {
    match read_words(&rt) {
        Ok(call) => {
            let is_pick = is_pick(&call.words);
            ended(&rt, is_pick, answer(&rt, call))
        }
        Err(fault) => give_up(&rt, false, &fault),
    }
}
