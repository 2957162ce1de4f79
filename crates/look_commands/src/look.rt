// How messages are looked at.
ghost use Rattle.std.specs.Prelude.{◌≡◌, IfOk};
ghost use Rattle.std.specs.Str.{encode_utf8_all};
ghost use Rattle.file_plans.specs.Plan.{Hand as Kept};
ghost use Rattle.file_plans.specs.Follows.{by_hand};
ghost use Rattle.step_plans.specs.CommandFaults.{command_cause};
ghost use Rattle.message_lines.specs.MessageText.{coded, Sight, sight_of};
ghost use Rattle.command_plans.specs.declared.caller.Caller.{Caller as CallerParts};
ghost use Rattle.command_plans.specs.Looking.{below_work as below_work_of, look_found, telling_of};
ghost use Rattle.look_commands.specs.Looks.{IsSource, telling_in, telling_said};
ghost use Rattle.look_commands.specs.Results.{FollowsAs, IsNamedAs};

use command_plans::Caller;
use folder_files::{FilePath, Files};
use format_compiler::Program;
use look_words::{FormatWords, LookWords};
use message_lines::{LineFormat, Look, named_format, read_format};
use mh_base::{Bytes, Duplicate, Text};
use std::alloc::{AllocError, Global};
use step_plans::CommandFault;

/// The format of lines: compiled, or in a file that is not read yet.
#[derive(Drop)]
pub(crate) enum FormatSource {
    Known(Program),
    InFile(FilePath),
}

/// What the words say of how messages will be looked at.
#[derive(Drop)]
pub(crate) struct LookSaid {
    pub(crate) source: FormatSource,
    pub(crate) width: u32,
}

/// A file below the current directory.
pub(crate) fn below_work(alloc: Global, file: &Text) -> Result<FilePath, AllocError>
    ensures { IfOk result (λ path. path ≡ below_work_of (encode_utf8_all file.now)) }
{
    Ok(FilePath {
        home: false,
        text: Bytes::from_slice(alloc, file.as_str().as_bytes())?,
    })
}

/// The format that the words name, compiled, or its file.
fn format_source(alloc: Global, words: &FormatWords) -> Result<FormatSource, CommandFault>
    ensures { IsSource words.now result }
{
    match words {
        FormatWords::Default => Ok(FormatSource::Known(named_format(alloc, None)?)),
        FormatWords::Word(word) => Ok(FormatSource::Known(named_format(alloc, Some(word))?)),
        FormatWords::File(path) => Ok(FormatSource::InFile(below_work(alloc, path)?)),
    }
}

/// What these words say of how messages will be looked at.
pub(crate) fn look(alloc: Global, words: &LookWords) -> Result<LookSaid, CommandFault>
    ensures { (caller : CallerParts) → IsNamedAs (telling_said caller) (telling_of caller words.now) result }
{
    let source = format_source(alloc, &words.format)?;
    Ok(LookSaid {
        source,
        width: words.width,
    })
}

/// The format, which is known, or its file is read.
fn find_program<F: Files>(
    alloc: Global,
    run: u128,
    files: &mut F,
    source: FormatSource,
) -> Result<Program, CommandFault>
    ensures { (h : Kept) (sight : Sight)
        → FollowsAs (λ program. coded program sight) run command_cause (look_found (telling_in sight source))
        (by_hand h (F.state files.old)) (by_hand h (F.state files.new)) result }
{
    match source {
        FormatSource::Known(program) => Ok(program),
        FormatSource::InFile(path) => read_format(alloc, run, files, &LineFormat::File(path)),
    }
}

/// How the caller looks at messages, by what the words say, once the format is found.
pub(crate) fn find_look<F: Files>(
    alloc: Global,
    run: u128,
    files: &mut F,
    caller: &Caller,
    said: LookSaid,
) -> Result<Look, CommandFault>
    ensures { (h : Kept)
        → FollowsAs (λ look. coded look.program (sight_of look)) run command_cause
        (look_found (telling_said caller.now said)) (by_hand h (F.state files.old))
        (by_hand h (F.state files.new)) result }
{
    let user = caller.user.duplicate(alloc)?;
    let program = find_program(alloc, run, files, said.source)?;
    Ok(Look {
        program,
        width: said.width,
        moment: caller.clock.moment(),
        user,
    })
}
