// What `main` says at the end of a call, beside what the top call said.
use crate::call::CallEnd;
use crate::help::first_page;
use crate::lines::{line_of, line_with, warn, warn_if_there};
use crate::reading::{count_of_profile, read};
use folder_files::{Refusal, Which};
use mh_base::WordWhy;
use mh_tools::Status;
use std::alloc::AllocError;
use std::io::Write;

/// What stands in the place of a message's number where `pick` names none, so that a command which is given its output
/// does not take the current message.
const NO_MESSAGE: &[u8] = b"0\n";

/// Writes it. Where that fails nobody reads it.
pub fn name_no_message(rt: &HostRuntime) {
    let _ = rt.stdout().write_all(NO_MESSAGE);
}

/// Whether these words of `pick` list messages; words that can't be read might.
fn may_list(rt: &HostRuntime, home: &str, words: &[String]) -> bool {
    match read(rt, home, "pick", words) {
        Ok(reading) => reading.picks_aloud(),
        Err(_) => true,
    }
}

/// Whether a `pick` of these words ended without a number, where a reader waits for one.
fn names_no_message(rt: &HostRuntime, home: &str, words: &[String], end: &CallEnd) -> bool {
    match end.status {
        Status::Done | Status::Refused(Refusal::NoMatch) => false,
        _ => !end.has_written && may_list(rt, home, words),
    }
}

/// Whether a command of these words only looks and lists.
fn only_looks(rt: &HostRuntime, home: &str, command: &str, words: &[String]) -> bool {
    match command {
        "scan" | "mhlist" => true,
        "pick" | "mark" | "folder" => match read(rt, home, command, words) {
            Ok(reading) => reading.only_looks(command),
            Err(_) => false,
        },
        _ => false,
    }
}

/// Whether all that went wrong is that the reader of a list has gone.
fn is_just_unread(
    rt: &HostRuntime,
    home: &str,
    command: &str,
    words: &[String],
    end: &CallEnd,
) -> bool {
    end.has_no_reader
        && matches!(end.status, Status::Faulted(Which::Out))
        && only_looks(rt, home, command, words)
}

/// Whether the word at this place is one of the profile's.
fn is_of_profile(rt: &HostRuntime, home: &str, command: &str, place: u64) -> bool {
    match count_of_profile(rt, home, command) {
        Ok(count) => place < count,
        Err(_) => false,
    }
}

/// The line behind that on a wrong word of a command.
fn line_on_word(
    rt: &HostRuntime,
    home: &str,
    command: &str,
    place: u64,
) -> Result<String, AllocError> {
    if is_of_profile(rt, home, command, place) {
        return line_with(
            rt.alloc(),
            "the profile's entry \"",
            command,
            "\" has this word",
        );
    }
    line_with(rt.alloc(), "\"mh help ", command, "\" tells its switches")
}

/// The line behind that of a call's end; none where there is nothing to add.
fn line_behind(
    rt: &HostRuntime,
    home: &str,
    command: &str,
    end: &CallEnd,
) -> Result<Option<String>, AllocError> {
    match &end.status {
        Status::Refused(Refusal::BadSwitch { why, .. }) if *why == WordWhy::NoCommand => {
            Ok(Some(line_of(rt.alloc(), "\"mh help\" lists the commands")?))
        }
        Status::Refused(Refusal::BadSwitch { place, .. }) => {
            Ok(Some(line_on_word(rt, home, command, *place)?))
        }
        _ => match &end.more {
            Some(more) => Ok(Some(line_of(rt.alloc(), more.as_str())?)),
            None => Ok(None),
        },
    }
}

/// Says how a call of a command ended.
fn tell_command(rt: &HostRuntime, home: &str, command: &str, words: &[String], end: &CallEnd) {
    if is_just_unread(rt, home, command, words, end) {
        return;
    }
    if command == "pick" && names_no_message(rt, home, words, end) {
        name_no_message(rt);
    }
    warn(rt, end.line.as_slice());
    warn_if_there(rt, line_behind(rt, home, command, end));
}

/// Says how a call of these words ended.
pub fn tell_end(rt: &HostRuntime, home: &str, words: &[String], end: &CallEnd) {
    match words {
        [command, rest @ ..] => tell_command(rt, home, command.as_str(), rest, end),
        [] => {
            warn(rt, end.line.as_slice());
            warn(rt, first_page().as_bytes());
        }
    }
}
