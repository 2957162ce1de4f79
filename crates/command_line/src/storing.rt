// The run of `mhstore`.
ghost use Rattle.std.specs.Prelude.{◌≡◌, map};
ghost use Rattle.std.specs.Str.{chars};
ghost use Rattle.std.specs.String.{string_bytes};
ghost use Rattle.file_plans.specs.Plan.{Hand as Kept, fresh};
ghost use Rattle.file_plans.specs.Follows.{Follows, by_out};
ghost use Rattle.step_plans.specs.CommandFaults.{command_cause};
ghost use Rattle.command_words.specs.Ended.{ended_cause};
ghost use Rattle.command_plans.specs.Command.{by_words, store_begun};
ghost use Rattle.command_plans.specs.Profile.{path_of};
ghost use Rattle.store_words.specs.StoreWords.{store_said};

use command_context::{enter_folder, negation, path};
use command_words::Ended;
use folder_files::Files;
use mh_base::Sink;
use mh_profile::Entries;
use mhstore_command::{StoreJob, mhstore};
use std::alloc::Global;
use step_plans::{CommandFault, Hand};
use store_words::{StoreWords, store_words};

/// Runs `mhstore`, from the context on.
fn begin_mhstore<F: Files, O: Sink>(
    alloc: Global,
    hand: &mut Hand,
    files: &mut F,
    out: &mut O,
    profile: &Entries,
    words: StoreWords,
) -> Result<(), CommandFault>
    requires { hand.old.mail ≡ path_of profile.now }
    ensures { Follows hand.old.run command_cause (store_begun hand.old.run profile.now words)
        (by_out hand.old.kept (F.state files.old) (O.state out.old))
        (by_out hand.new.kept (F.state files.new) (O.state out.new)) result }
{
    let name = enter_folder(alloc, hand, files, profile, words.folder)?;
    let job = StoreJob {
        folder: name,
        specs: words.specs,
        parts: words.parts,
        clobber: words.clobber,
        negation: negation(alloc, profile)?,
    };
    mhstore(alloc, hand, files, out, &job)
}

/// Runs `mhstore` by its words, which are not read yet.
pub(crate) fn run_mhstore<F: Files, O: Sink>(
    alloc: Global,
    run: u128,
    files: &mut F,
    out: &mut O,
    profile: &Entries,
    words: &[String],
) -> Result<(), Ended>
    ensures { (left : Kept)
        × Follows run ended_cause
        (by_words (store_begun run profile.now) (store_said profile.now (map chars (map string_bytes words.now))))
        (by_out fresh (F.state files.old) (O.state out.old))
        (by_out left (F.state files.new) (O.state out.new)) result }
{
    let words = store_words(alloc, profile, words)?;
    let mut hand = Hand::new(run, path(alloc, profile)?);
    begin_mhstore(alloc, &mut hand, files, out, profile, words)?;
    Ok(())
}
