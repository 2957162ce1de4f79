// The run of `mhlist`.
ghost use Rattle.std.specs.Prelude.{◌≡◌, map};
ghost use Rattle.std.specs.Str.{chars};
ghost use Rattle.std.specs.String.{string_bytes};
ghost use Rattle.file_plans.specs.Plan.{Hand as Kept, fresh};
ghost use Rattle.file_plans.specs.Follows.{Follows, by_out};
ghost use Rattle.step_plans.specs.CommandFaults.{command_cause};
ghost use Rattle.command_words.specs.Ended.{ended_cause};
ghost use Rattle.command_plans.specs.Command.{by_words, list_begun};
ghost use Rattle.command_plans.specs.Profile.{path_of};
ghost use Rattle.list_words.specs.ListWords.{list_said};

use command_context::{enter_folder, negation, path};
use command_words::Ended;
use folder_files::Files;
use list_words::{ListWords, list_words};
use mh_base::Sink;
use mh_profile::Entries;
use mhlist_command::{ListJob, mhlist};
use std::alloc::Global;
use step_plans::{CommandFault, Hand};

/// Runs `mhlist`, from the context on.
fn begin_mhlist<F: Files, O: Sink>(
    alloc: Global,
    hand: &mut Hand,
    files: &mut F,
    out: &mut O,
    profile: &Entries,
    words: ListWords,
) -> Result<(), CommandFault>
    requires { hand.old.mail ≡ path_of profile.now }
    ensures { Follows hand.old.run command_cause (list_begun hand.old.run profile.now words)
        (by_out hand.old.kept (F.state files.old) (O.state out.old))
        (by_out hand.new.kept (F.state files.new) (O.state out.new)) result }
{
    let name = enter_folder(alloc, hand, files, profile, words.folder)?;
    let job = ListJob {
        folder: name,
        specs: words.specs,
        parts: words.parts,
        negation: negation(alloc, profile)?,
    };
    mhlist(alloc, hand, files, out, &job)
}

/// Runs `mhlist` by its words, which are not read yet.
pub(crate) fn run_mhlist<F: Files, O: Sink>(
    alloc: Global,
    run: u128,
    files: &mut F,
    out: &mut O,
    profile: &Entries,
    words: &[String],
) -> Result<(), Ended>
    ensures { (left : Kept)
        × Follows run ended_cause
        (by_words (list_begun run profile.now) (list_said profile.now (map chars (map string_bytes words.now))))
        (by_out fresh (F.state files.old) (O.state out.old))
        (by_out left (F.state files.new) (O.state out.new)) result }
{
    let words = list_words(alloc, profile, words)?;
    let mut hand = Hand::new(run, path(alloc, profile)?);
    begin_mhlist(alloc, &mut hand, files, out, profile, words)?;
    Ok(())
}
