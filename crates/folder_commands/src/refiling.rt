// The run of `refile`.
ghost use Rattle.std.specs.Prelude.{◌≡◌, map};
ghost use Rattle.std.specs.Str.{chars};
ghost use Rattle.std.specs.String.{string_bytes};
ghost use Rattle.file_plans.specs.Plan.{Hand as Kept, fresh};
ghost use Rattle.file_plans.specs.Follows.{Follows, by_hand};
ghost use Rattle.step_plans.specs.CommandFaults.{command_cause};
ghost use Rattle.command_words.specs.Ended.{ended_cause};
ghost use Rattle.folder_words.specs.RefileWords.{refile_said};
ghost use Rattle.command_plans.specs.Command.{by_words, refile_begun};
ghost use Rattle.command_plans.specs.Profile.{path_of};

use command_context::{enter_folder, negation, path};
use command_words::Ended;
use folder_files::Files;
use folder_words::{RefileWords, refile_words};
use mh_profile::Entries;
use refile_command::{RefileJob, refile};
use std::alloc::Global;
use step_plans::{CommandFault, Hand};

/// Runs `refile`, from the context on. The source becomes the current folder where the words name it.
fn begin_refile<F: Files>(
    alloc: Global,
    hand: &mut Hand,
    files: &mut F,
    profile: &Entries,
    words: RefileWords,
) -> Result<(), CommandFault>
    requires { hand.old.mail ≡ path_of profile.now }
    ensures { Follows hand.old.run command_cause (refile_begun hand.old.run profile.now words)
        (by_hand hand.old.kept (F.state files.old)) (by_hand hand.new.kept (F.state files.new)) result }
{
    let set_current = words.source.is_some();
    let source = enter_folder(alloc, hand, files, profile, words.source)?;
    let job = RefileJob {
        source,
        set_current,
        specs: words.specs,
        target: words.target,
        others: words.others,
        link: words.link,
        negation: negation(alloc, profile)?,
    };
    refile(alloc, hand, files, &job)
}

/// Runs `refile` by its words, which are not read yet.
pub fn run_refile<F: Files>(
    alloc: Global,
    run: u128,
    files: &mut F,
    profile: &Entries,
    words: &[String],
) -> Result<(), Ended>
    ensures { (left : Kept)
        × Follows run ended_cause
        (by_words (refile_begun run profile.now) (refile_said profile.now (map chars (map string_bytes words.now))))
        (by_hand fresh (F.state files.old)) (by_hand left (F.state files.new)) result }
{
    let words = refile_words(alloc, profile, words)?;
    let mut hand = Hand::new(run, path(alloc, profile)?);
    begin_refile(alloc, &mut hand, files, profile, words)?;
    Ok(())
}
