// The words that the program is called with.
use crate::help::is_command;
use crate::start::{StartFault, last_segment};
use std::io::ErrorKind;
use std::{env, fs};

/// The words behind the program's name; a command by whose name it is called stands before them.
#[derive(Drop)]
pub struct CallWords {
    pub words: Vec<String>,
    /// Where a word stands that is no text, from 1 behind the program's name. In its place there is an empty one.
    pub no_text: Option<usize>,
}

/// The command of whose name the program is called, if it is one.
fn called_command(program: &str) -> Option<&str> {
    let name = last_segment(program);
    if is_command(name) { Some(name) } else { None }
}

/// The words of a call by this name of the program.
fn words_by(rt: &HostRuntime, program: &str) -> Result<Vec<String>, StartFault> {
    let mut words = Vec::new(rt.alloc());
    if let Some(command) = called_command(program) {
        words.push(String::from_str(rt.alloc(), command)?)?;
    }
    Ok(words)
}

/// The words of arguments, of which the first is the program's name.
fn named(rt: &HostRuntime, args: env::Args) -> Result<Vec<String>, StartFault> {
    let mut args = args;
    let Some(program) = args.next() else {
        return Ok(Vec::new(rt.alloc()));
    };
    let mut words = words_by(rt, program.as_str())?;
    for word in args {
        words.push(word)?;
    }
    Ok(words)
}

/// The arguments where one of them is no text, by the bytes that the system has of them.
fn spoilt(rt: &HostRuntime) -> Result<CallWords, StartFault> {
    let bytes = fs::read(rt, "/proc/self/cmdline")?;
    let mut words = Vec::new(rt.alloc());
    let mut no_text = None;
    for (place, part) in bytes.as_slice().split(|byte| *byte == 0).enumerate() {
        let text = std::str::from_utf8(part);
        if text.is_err() && no_text.is_none() {
            no_text = Some(place);
        }
        words.push(String::from_str(rt.alloc(), text.unwrap_or(""))?)?;
    }
    Ok(CallWords {
        words: named(rt, words.into_iter())?,
        no_text,
    })
}

pub fn read_words(rt: &HostRuntime) -> Result<CallWords, StartFault> {
    match env::args(rt) {
        Ok(args) => Ok(CallWords {
            words: named(rt, args)?,
            no_text: None,
        }),
        Err(error) if error.kind() == ErrorKind::InvalidData => spoilt(rt),
        Err(error) => Err(StartFault::from(error)),
    }
}

/// Whether the words call `pick`, also behind `--wait`.
pub fn is_pick(words: &[String]) -> bool {
    match words {
        [wait, _, command, ..] if wait.as_str() == "--wait" => command.as_str() == "pick",
        [command, ..] => command.as_str() == "pick",
        [] => false,
    }
}
