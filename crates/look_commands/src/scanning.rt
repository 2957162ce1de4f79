// The run of `scan`.
ghost use Rattle.std.specs.Prelude.{◌≡◌, map};
ghost use Rattle.std.specs.Str.{chars};
ghost use Rattle.std.specs.String.{string_bytes};
ghost use Rattle.file_plans.specs.Plan.{Hand as Kept, fresh};
ghost use Rattle.file_plans.specs.Follows.{Follows, by_out};
ghost use Rattle.step_plans.specs.CommandFaults.{command_cause};
ghost use Rattle.command_words.specs.Ended.{ended_cause};
ghost use Rattle.look_words.specs.ScanWords.{scan_said};
ghost use Rattle.command_plans.specs.Command.{by_words, scan_begun};
ghost use Rattle.command_plans.specs.Looking.{scan_asked};
ghost use Rattle.command_plans.specs.Profile.{path_of};
ghost use Rattle.look_commands.specs.Asked.{asked_of};
ghost use Rattle.look_commands.specs.Results.{IsSaidAs};

use crate::look::{LookSaid, find_look, look};
use command_context::{enter_folder, negation, path};
use command_plans::Caller;
use command_words::{Ended, known_sequences};
use folder_files::Files;
use look_words::{ScanWords, scan_words};
use mh_base::Sink;
use mh_looks::{ScanJob, scan};
use mh_profile::Entries;
use std::alloc::Global;
use step_plans::{CommandFault, Hand};

/// The words of `scan`, and how messages will be looked at.
#[derive(Drop)]
struct ScanLook {
    words: ScanWords,
    look: LookSaid,
}

/// What the words say, which are not read yet.
fn scan_look(
    alloc: Global,
    profile: &Entries,
    caller: &Caller,
    words: &[String],
) -> Result<ScanLook, Ended>
    ensures { IsSaidAs (asked_of caller.now)
        (scan_asked caller.now (scan_said profile.now (map chars (map string_bytes words.now)))) result }
{
    let words = scan_words(alloc, profile, words)?;
    let look = look(alloc, &words.look)?;
    Ok(ScanLook { words, look })
}

/// Runs `scan`, from the context on.
fn begin_scan<F: Files, O: Sink>(
    alloc: Global,
    hand: &mut Hand,
    files: &mut F,
    out: &mut O,
    profile: &Entries,
    caller: &Caller,
    asked: ScanLook,
) -> Result<(), CommandFault>
    requires { hand.old.mail ≡ path_of profile.now }
    ensures { Follows hand.old.run command_cause (scan_begun hand.old.run profile.now (asked_of caller.now asked))
        (by_out hand.old.kept (F.state files.old) (O.state out.old))
        (by_out hand.new.kept (F.state files.new) (O.state out.new)) result }
{
    let ScanLook { words, look } = asked;
    let folder = enter_folder(alloc, hand, files, profile, words.folder)?;
    let look = find_look(alloc, hand.run(), files, caller, look)?;
    let job = ScanJob {
        folder,
        specs: words.specs,
        reverse: words.reverse,
        unseen: known_sequences(alloc, profile, b"Unseen-Sequence")?,
        negation: negation(alloc, profile)?,
        look,
    };
    scan(alloc, hand, files, out, &job)
}

/// Runs `scan` by its words, which are not read yet.
pub fn run_scan<F: Files, O: Sink>(
    alloc: Global,
    run: u128,
    files: &mut F,
    out: &mut O,
    profile: &Entries,
    caller: &Caller,
    words: &[String],
) -> Result<(), Ended>
    ensures { (left : Kept)
        × Follows run ended_cause
        (by_words (scan_begun run profile.now)
        (scan_asked caller.now (scan_said profile.now (map chars (map string_bytes words.now)))))
        (by_out fresh (F.state files.old) (O.state out.old))
        (by_out left (F.state files.new) (O.state out.new)) result }
{
    let asked = scan_look(alloc, profile, caller, words)?;
    let mut hand = Hand::new(run, path(alloc, profile)?);
    begin_scan(alloc, &mut hand, files, out, profile, caller, asked)?;
    Ok(())
}
