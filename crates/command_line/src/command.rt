// Which command the words name, and its run.
ghost use Rattle.std.specs.Prelude.{◌≡◌, IfOk, map};
ghost use Rattle.std.specs.String.{string_bytes};
ghost use Rattle.file_plans.specs.Plan.{Hand as Kept, fresh};
ghost use Rattle.file_plans.specs.Follows.{Follows, all, by_hand};
ghost use Rattle.step_plans.specs.CommandFaults.{command_cause};
ghost use Rattle.command_stages.specs.Texts.{text_read};
ghost use Rattle.command_words.specs.Ended.{ended_cause};
ghost use Rattle.command_plans.specs.Command.{command as command_plan, command_by, no_command as no_command_of, word_by};
ghost use Rattle.command_plans.specs.CommandNames.{command_of, named};
ghost use Rattle.command_plans.specs.LeavesInput.{LeavesInput};
ghost use Rattle.command_plans.specs.Profile.{profile_name as profile_name_of};

use crate::annotating::run_anno;
use crate::building::run_mhbuild;
use crate::listing::run_mhlist;
use crate::name::command_named;
use crate::sorting::run_sortm;
use crate::storing::run_mhstore;
use command_plans::{Caller, CommandName};
use command_stages::read_text;
use command_words::Ended;
use folder_commands::{run_folder, run_mark, run_pick, run_refile, run_rmm};
use folder_files::{Files, Place, Refusal};
use look_commands::{run_inc, run_scan};
use mh_base::{Bytes, Name, Sink, Source, WordWhy};
use mh_profile::Entries;
use std::alloc::{AllocError, Global};
use step_plans::CommandFault;

fn no_command(word: Option<Bytes>) -> Ended
    ensures { result ≡ no_command_of word }
{
    Ended {
        fault: CommandFault::Refused(Refusal::BadSwitch {
            place: 0,
            why: WordWhy::NoCommand,
        }),
        word,
    }
}

fn profile_name(alloc: Global) -> Result<Name, AllocError>
    ensures { IfOk result (λ name. name ≡ profile_name_of) }
{
    let text = Bytes::from_slice(alloc, b".mh_profile")?;
    Ok(Name::new(text).unwrap())
}

/// Runs the command of this name, if there is one.
fn run_word<F: Files, I: Source, O: Sink>(
    alloc: Global,
    run: u128,
    files: &mut F,
    input: &mut I,
    out: &mut O,
    profile: &Entries,
    caller: &Caller,
    word: &str,
    rest: &[String],
) -> Result<(), Ended>
    ensures plan { (left : Kept)
        × Follows run ended_cause
        (word_by run caller.now profile.now word.now (map string_bytes rest.now) (named word.now))
        (all fresh (F.state files.old) (I.state input.old) (O.state out.old))
        (all left (F.state files.new) (I.state input.new) (O.state out.new)) result }
    ensures input { LeavesInput (named word.now) (I.state input.old) (I.state input.new) result }
{
    match command_named(word) {
        Some(CommandName::Inc) => run_inc(alloc, run, files, out, profile, caller, rest),
        Some(CommandName::Scan) => run_scan(alloc, run, files, out, profile, caller, rest),
        Some(CommandName::Pick) => run_pick(alloc, run, files, out, profile, caller, rest),
        Some(CommandName::Mark) => run_mark(alloc, run, files, out, profile, rest),
        Some(CommandName::Refile) => run_refile(alloc, run, files, profile, rest),
        Some(CommandName::Rmm) => run_rmm(alloc, run, files, profile, rest),
        Some(CommandName::Folder) => run_folder(alloc, run, files, out, profile, rest),
        Some(CommandName::Anno) => run_anno(alloc, run, files, profile, caller, rest),
        Some(CommandName::Sortm) => run_sortm(alloc, run, files, profile, rest),
        Some(CommandName::Mhlist) => run_mhlist(alloc, run, files, out, profile, rest),
        Some(CommandName::Mhstore) => run_mhstore(alloc, run, files, out, profile, rest),
        Some(CommandName::Mhbuild) => { run_mhbuild(alloc, run, files, input, out, profile, rest) }
        None => {
            let word = Bytes::from_slice(alloc, word.as_bytes())?;
            Err(no_command(Some(word)))
        }
    }
}

/// Runs the command that the first word names, if there is one.
fn run_named<F: Files, I: Source, O: Sink>(
    alloc: Global,
    run: u128,
    files: &mut F,
    input: &mut I,
    out: &mut O,
    profile: &Entries,
    caller: &Caller,
    words: &[String],
) -> Result<(), Ended>
    ensures plan { (left : Kept)
        × Follows run ended_cause (command_by run caller.now profile.now (map string_bytes words.now))
        (all fresh (F.state files.old) (I.state input.old) (O.state out.old))
        (all left (F.state files.new) (I.state input.new) (O.state out.new)) result }
    ensures input { LeavesInput (command_of (map string_bytes words.now)) (I.state input.old)
        (I.state input.new) result }
{
    match words.split_first() {
        None => Err(no_command(None)),
        Some((word, rest)) => run_word(
            alloc,
            run,
            files,
            input,
            out,
            profile,
            caller,
            word.as_str(),
            rest,
        ),
    }
}

fn read_profile<F: Files>(alloc: Global, run: u128, files: &mut F) -> Result<Bytes, CommandFault>
    ensures { (h : Kept)
        → Follows run command_cause (text_read Place.Home profile_name_of) (by_hand h (F.state files.old))
        (by_hand h (F.state files.new)) result }
{
    let name = profile_name(alloc)?;
    read_text(alloc, run, files, &Place::Home, &name)
}

/// Runs the command that the words name, for this caller.
pub fn run_command<F: Files, I: Source, O: Sink>(
    alloc: Global,
    words: &[String],
    run: u128,
    caller: &Caller,
    files: &mut F,
    input: &mut I,
    out: &mut O,
) -> Result<(), Ended>
    ensures plan { (left : Kept)
        × Follows run ended_cause (command_plan run caller.now (map string_bytes words.now))
        (all fresh (F.state files.old) (I.state input.old) (O.state out.old))
        (all left (F.state files.new) (I.state input.new) (O.state out.new)) result }
    ensures input { LeavesInput (command_of (map string_bytes words.now)) (I.state input.old)
        (I.state input.new) result }
{
    let text = read_profile(alloc, run, files)?;
    let profile = Entries::read(alloc, text.as_slice())?;
    run_named(alloc, run, files, input, out, &profile, caller, words)
}
