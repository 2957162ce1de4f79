// The run of `sortm`.
ghost use Rattle.std.specs.Prelude.{◌≡◌, map};
ghost use Rattle.std.specs.Str.{chars};
ghost use Rattle.std.specs.String.{string_bytes};
ghost use Rattle.file_plans.specs.Plan.{Hand as Kept, fresh};
ghost use Rattle.file_plans.specs.Follows.{Follows, by_hand};
ghost use Rattle.step_plans.specs.CommandFaults.{command_cause};
ghost use Rattle.command_words.specs.Ended.{ended_cause};
ghost use Rattle.command_plans.specs.Command.{by_words, sort_begun};
ghost use Rattle.command_plans.specs.Profile.{path_of};
ghost use Rattle.sort_words.specs.SortWords.{sort_said};

use command_context::{enter_folder, negation, path};
use command_words::Ended;
use folder_files::Files;
use mh_profile::Entries;
use sort_words::{SortWords, sort_words};
use sortm_command::{SortJob, sortm};
use std::alloc::Global;
use step_plans::{CommandFault, Hand};

/// Runs `sortm`, from the context on.
fn begin_sortm<F: Files>(
    alloc: Global,
    hand: &mut Hand,
    files: &mut F,
    profile: &Entries,
    words: SortWords,
) -> Result<(), CommandFault>
    requires { hand.old.mail ≡ path_of profile.now }
    ensures { Follows hand.old.run command_cause (sort_begun hand.old.run profile.now words)
        (by_hand hand.old.kept (F.state files.old)) (by_hand hand.new.kept (F.state files.new)) result }
{
    let folder = enter_folder(alloc, hand, files, profile, words.folder)?;
    let job = SortJob {
        folder,
        specs: words.specs,
        key: words.key,
        negation: negation(alloc, profile)?,
    };
    sortm(alloc, hand, files, &job)
}

/// Runs `sortm` by its words, which are not read yet.
pub(crate) fn run_sortm<F: Files>(
    alloc: Global,
    run: u128,
    files: &mut F,
    profile: &Entries,
    words: &[String],
) -> Result<(), Ended>
    ensures { (left : Kept)
        × Follows run ended_cause
        (by_words (sort_begun run profile.now) (sort_said profile.now (map chars (map string_bytes words.now))))
        (by_hand fresh (F.state files.old)) (by_hand left (F.state files.new)) result }
{
    let words = sort_words(alloc, profile, words)?;
    let mut hand = Hand::new(run, path(alloc, profile)?);
    begin_sortm(alloc, &mut hand, files, profile, words)?;
    Ok(())
}
