// The top call.
ghost use Rattle.std.specs.Prelude.{◌≡◌, ◌⊎◌, map, option_map};
ghost use Rattle.std.specs.String.{string_bytes};
ghost use Rattle.mh_tools.specs.AnswersAlone.{AnswersAlone};
ghost use Rattle.mh_tools.specs.AnswersAsOne.{AnswersAsOne};
ghost use Rattle.mh_tools.specs.Calls.{around, called};
ghost use Rattle.mh_tools.specs.FollowsItsPlan.{FollowsItsPlan, TellsStatus, told_status};
ghost use Rattle.mh_tools.specs.IsCaused.{IsCaused};
ghost use Rattle.mh_tools.specs.KeepsMail.{KeepsMail, KeepsMarks};
ghost use Rattle.mh_tools.specs.ReadsInput.{ReadsInput};
ghost use Rattle.mh_tools.specs.Status.{ended_status, ended_word, fault_status};
ghost use Rattle.mh_tools.specs.TellsWhatItSaw.{TellsIfItLooks};

use crate::lines::error_line;
use crate::{Setting, Status};
use command_line::run_command;
use command_words::Ended;
use folder_files::Files;
use mh_base::{Bytes, Sink, SinkFault, Source};
use std::alloc::Global;

fn word_of(word: &Option<Bytes>) -> Option<&[u8]>
    ensures { option_map (λ w. w.now) result ≡ word.now }
{
    match word {
        Some(word) => Some(word.as_slice()),
        None => None,
    }
}

/// What became of the line of a status.
fn told(outcome: Result<(), SinkFault>, status: Status) -> Status
    ensures { result ≡ told_status outcome status }
{
    match outcome {
        Err(SinkFault::Memory) => Status::NoMemory,
        _ => status,
    }
}

/// Writes the line of what ended a command. A fault of the error output changes nothing.
fn report_end<E: Sink>(alloc: Global, err: &mut E, ended: Ended) -> Status
    ensures ends { (result ≡ fault_status ended.fault) ⊎ (result ≡ Status.NoMemory) }
    ensures told { TellsStatus ended.word (E.state err.old) (E.state err.new) result }
{
    let Ended { fault, word } = ended;
    let status = Status::from(fault);
    match error_line(alloc, word_of(&word), &status) {
        Ok(line) => told(err.put(line.as_slice()), status),
        Err(_) => Status::NoMemory,
    }
}

fn report<E: Sink>(alloc: Global, err: &mut E, outcome: Result<(), Ended>) -> Status
    ensures ends { (result ≡ ended_status outcome) ⊎ (result ≡ Status.NoMemory) }
    ensures told { TellsStatus (ended_word outcome) (E.state err.old) (E.state err.new) result }
{
    match outcome {
        Ok(()) => Status::Done,
        Err(ended) => report_end(alloc, err, ended),
    }
}

/// Runs one command: its words, without the program's name, on these files, with this input and
/// these outputs.
pub fn mh<F: Files, I: Source, O: Sink, E: Sink>(
    alloc: Global,
    words: &Vec<String>,
    setting: &Setting,
    files: &mut F,
    input: &mut I,
    out: &mut O,
    err: &mut E,
) -> Status
    ensures plan { FollowsItsPlan
        (called (map string_bytes words.now.items) setting.now
        (around (F.state files.old) (I.state input.old) (O.state out.old) (E.state err.old))
        (around (F.state files.new) (I.state input.new) (O.state out.new) (E.state err.new)) result) }
    ensures caused { IsCaused
        (called (map string_bytes words.now.items) setting.now
        (around (F.state files.old) (I.state input.old) (O.state out.old) (E.state err.old))
        (around (F.state files.new) (I.state input.new) (O.state out.new) (E.state err.new)) result) }
    ensures seen { TellsIfItLooks
        (called (map string_bytes words.now.items) setting.now
        (around (F.state files.old) (I.state input.old) (O.state out.old) (E.state err.old))
        (around (F.state files.new) (I.state input.new) (O.state out.new) (E.state err.new)) result) }
    ensures alone { AnswersAlone
        (called (map string_bytes words.now.items) setting.now
        (around (F.state files.old) (I.state input.old) (O.state out.old) (E.state err.old))
        (around (F.state files.new) (I.state input.new) (O.state out.new) (E.state err.new)) result) }
    ensures as_one { AnswersAsOne
        (called (map string_bytes words.now.items) setting.now
        (around (F.state files.old) (I.state input.old) (O.state out.old) (E.state err.old))
        (around (F.state files.new) (I.state input.new) (O.state out.new) (E.state err.new)) result) }
    ensures keeps { KeepsMail
        (called (map string_bytes words.now.items) setting.now
        (around (F.state files.old) (I.state input.old) (O.state out.old) (E.state err.old))
        (around (F.state files.new) (I.state input.new) (O.state out.new) (E.state err.new)) result) }
    ensures marks { KeepsMarks
        (called (map string_bytes words.now.items) setting.now
        (around (F.state files.old) (I.state input.old) (O.state out.old) (E.state err.old))
        (around (F.state files.new) (I.state input.new) (O.state out.new) (E.state err.new)) result) }
    ensures input { ReadsInput
        (called (map string_bytes words.now.items) setting.now
        (around (F.state files.old) (I.state input.old) (O.state out.old) (E.state err.old))
        (around (F.state files.new) (I.state input.new) (O.state out.new) (E.state err.new)) result) }
{
    let outcome = run_command(
        alloc,
        words.as_slice(),
        setting.run(),
        setting.caller(),
        files,
        input,
        out,
    );
    report(alloc, err, outcome)
}
