// What the program tells of itself, before any command runs.

mod anno;
mod errors;
mod folder;
mod inc;
mod mark;
mod mhbuild;
mod mhlist;
mod mhstore;
mod overview;
mod pick;
mod refile;
mod rmm;
mod scan;
mod sortm;

use crate::mail_directory::told_mail_directory;
use crate::start::{StartFault, read_home};
use crate::usage::{offers, usage};
use crate::version::version;
use std::alloc::{AllocError, Global};
use std::io::{ErrorKind, Write};

/// What words ask of the program itself.
#[derive(Drop)]
pub enum Help {
    /// What there is, and where the mail directory is.
    Overview,
    Version,
    /// The lines of errors.
    Errors,
    /// How a command of this name is called, and what it does.
    Command(String),
    /// Its switches, for a shell.
    Switches(String),
    /// A word of which there is no page.
    Unknown(String),
}

/// The page of a command, behind its usage.
fn command_page(word: &str) -> Option<&'static str> {
    match word {
        "anno" => Some(anno::PAGE),
        "folder" => Some(folder::PAGE),
        "inc" => Some(inc::PAGE),
        "mark" => Some(mark::PAGE),
        "mhbuild" => Some(mhbuild::PAGE),
        "mhlist" => Some(mhlist::PAGE),
        "mhstore" => Some(mhstore::PAGE),
        "pick" => Some(pick::PAGE),
        "refile" => Some(refile::PAGE),
        "rmm" => Some(rmm::PAGE),
        "scan" => Some(scan::PAGE),
        "sortm" => Some(sortm::PAGE),
        _ => None,
    }
}

/// Whether this is the name of a command.
pub fn is_command(word: &str) -> bool {
    command_page(word).is_some()
}

fn of_one(word: &str) -> Option<Help> {
    match word {
        "help" | "--help" => Some(Help::Overview),
        "--version" => Some(Help::Version),
        _ => None,
    }
}

/// What `help` is asked with one word.
fn on_word(alloc: Global, word: &str) -> Result<Help, AllocError> {
    if word == "errors" {
        return Ok(Help::Errors);
    }
    let name = String::from_str(alloc, word)?;
    Ok(if is_command(word) {
        Help::Command(name)
    } else {
        Help::Unknown(name)
    })
}

fn of_two(alloc: Global, first: &str, second: &str) -> Result<Option<Help>, AllocError> {
    if first == "help" {
        return Ok(Some(on_word(alloc, second)?));
    }
    if is_command(first) && second == "--help" {
        return Ok(Some(Help::Command(String::from_str(alloc, first)?)));
    }
    if is_command(second) && first == "--switches" {
        return Ok(Some(Help::Switches(String::from_str(alloc, second)?)));
    }
    Ok(None)
}

/// What these words ask of the program itself; any others are a command's.
pub fn asked(alloc: Global, words: &[String]) -> Result<Option<Help>, AllocError> {
    match words {
        [word] => Ok(of_one(word.as_str())),
        [first, second] => of_two(alloc, first.as_str(), second.as_str()),
        _ => Ok(None),
    }
}

/// What commands there are.
pub fn first_page() -> &'static str {
    overview::PAGE
}

/// A text behind another.
fn with(text: String, more: &str) -> Result<String, AllocError> {
    let mut text = text;
    text.push_str(more)?;
    Ok(text)
}

fn overview_text(rt: &HostRuntime) -> Result<String, StartFault> {
    let home = read_home(rt)?;
    let mut text = String::from_str(rt.alloc(), first_page())?;
    text.push('\n')?;
    Ok(with(text, told_mail_directory(rt, home.as_str())?.as_str())?)
}

fn text_of(rt: &HostRuntime, help: Help) -> Result<String, StartFault> {
    let alloc = rt.alloc();
    match help {
        Help::Overview => overview_text(rt),
        Help::Version => Ok(version(rt)?),
        Help::Errors => Ok(String::from_str(alloc, errors::PAGE)?),
        Help::Command(name) => {
            let page = command_page(name.as_str()).unwrap_or("");
            Ok(with(usage(alloc, name.as_str())?, page)?)
        }
        Help::Switches(name) => Ok(offers(alloc, name.as_str())?),
        Help::Unknown(word) => Err(StartFault::NoHelp(word)),
    }
}

/// Writes to the output.
fn say(rt: &HostRuntime, text: &str) -> Result<(), StartFault> {
    match rt.stdout().write_all(text.as_bytes()) {
        Ok(()) => Ok(()),
        Err(error) if error.kind() == ErrorKind::BrokenPipe => Err(StartFault::NoReader),
        Err(_) => Err(StartFault::Output),
    }
}

/// Tells of the program itself.
pub fn tell(rt: &HostRuntime, help: Help) -> Result<(), StartFault> {
    say(rt, text_of(rt, help)?.as_str())
}
