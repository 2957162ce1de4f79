// The format that words name is found, and compiled.
ghost use Rattle.std.specs.Prelude.{option_map};
ghost use Rattle.std.specs.Str.{encode_utf8_all};
ghost use Rattle.file_plans.specs.Plan.{Hand};
ghost use Rattle.file_plans.specs.Follows.{by_hand};
ghost use Rattle.message_lines.specs.Finding.{file_read, Finds, format_by, format_found, format_in, format_named, format_within, IsIn};

use crate::LineFormat;
use file_plans::{Reading, ask_read_file};
use folder_files::{FilePath, Files, Refusal};
use format_compiler::{FormatFault, Program, compile};
use mh_base::{Duplicate, Text};
use std::alloc::Global;
use step_plans::CommandFault;

/// The longest format, in bytes.
const LIMIT: u64 = 65_536;

/// The format of a line without words that name one.
const DEFAULT: &[u8] =
    b"%4(msg)%<(cur)+%| %>%<{replied}-%?{encrypted}E%| %>%02(mon{date})/%02(mday{date})%<{date} %|*%>%17(decode(friendly{from}))  %(decode{subject})%<{body}<<%{body}%>";

/// The program of a format's text.
fn program(alloc: Global, text: &[u8]) -> Result<Program, CommandFault>
    ensures { IsIn (format_in text.now) result }
{
    match compile(alloc, text) {
        Ok(program) => Ok(program),
        Err(FormatFault::Bad(at)) => Err(CommandFault::Refused(Refusal::BadFormat { at })),
        Err(FormatFault::Memory) => Err(CommandFault::Memory),
    }
}

/// The same of a word.
fn word_program(alloc: Global, word: &Text) -> Result<Program, CommandFault>
    ensures { IsIn (format_within (encode_utf8_all word.now)) result }
{
    let text = word.as_str().as_bytes();
    let length = text.len() as u64;
    if length > LIMIT {
        let limit = LIMIT;
        return Err(CommandFault::Refused(Refusal::TooLarge { length, limit }));
    }
    program(alloc, text)
}

/// The program of the format that a word names, or of the one that is there without words.
pub fn named_format(alloc: Global, word: Option<&Text>) -> Result<Program, CommandFault>
    ensures { IsIn (format_named (option_map (λ w. w.now) word.entry)) result }
{
    match word {
        None => program(alloc, DEFAULT),
        Some(word) => word_program(alloc, word),
    }
}

/// The same of what reading a file gave.
fn file_program(alloc: Global, path: &FilePath, reading: Reading) -> Result<Program, CommandFault>
    ensures { IsIn (format_by path.now reading) result }
{
    match reading {
        Reading::Content(text) => program(alloc, text.as_slice()),
        Reading::Long(length) => {
            let limit = LIMIT;
            Err(CommandFault::Refused(Refusal::TooLarge { length, limit }))
        }
        Reading::Gone => Err(CommandFault::Refused(Refusal::NoFile(path.duplicate(alloc)?))),
    }
}

/// Reads a format from its file.
fn read_file<F: Files>(
    alloc: Global,
    run: u128,
    files: &mut F,
    path: &FilePath,
) -> Result<Program, CommandFault>
    ensures { (h : Hand)
        → Finds run (file_read path.now) (by_hand h (F.state files.old)) (by_hand h (F.state files.new)) result }
{
    let reading = ask_read_file(alloc, run, files, path, LIMIT)?;
    file_program(alloc, path, reading)
}

/// Finds the format that words name, and compiles it.
pub fn read_format<F: Files>(
    alloc: Global,
    run: u128,
    files: &mut F,
    format: &LineFormat,
) -> Result<Program, CommandFault>
    ensures plan { (h : Hand)
        → Finds run (format_found format.now) (by_hand h (F.state files.old)) (by_hand h (F.state files.new)) result }
{
    match format {
        LineFormat::Default => named_format(alloc, None),
        LineFormat::Word(word) => named_format(alloc, Some(word)),
        LineFormat::File(path) => read_file(alloc, run, files, path),
    }
}
