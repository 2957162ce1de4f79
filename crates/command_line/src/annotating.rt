// The run of `anno`.
ghost use Rattle.std.specs.Prelude.{◌≡◌, map};
ghost use Rattle.std.specs.Str.{chars};
ghost use Rattle.std.specs.String.{string_bytes};
ghost use Rattle.file_plans.specs.Plan.{Hand as Kept, fresh};
ghost use Rattle.file_plans.specs.Follows.{Follows, by_hand};
ghost use Rattle.step_plans.specs.CommandFaults.{command_cause};
ghost use Rattle.command_words.specs.Ended.{ended_cause};
ghost use Rattle.command_words.specs.Results.{IsSaid};
ghost use Rattle.command_plans.specs.Command.{anno_begun, annotated_by, by_words};
ghost use Rattle.command_plans.specs.Profile.{path_of};

use anno_command::{AnnoJob, anno};
use anno_words::{AnnoWords, anno_words};
use command_context::{enter_folder, negation, path};
use command_plans::Caller;
use command_words::Ended;
use folder_files::Files;
use mh_profile::Entries;
use std::alloc::Global;
use step_plans::{CommandFault, Hand};

/// What the words say, which are not read yet.
fn words_of(
    alloc: Global,
    profile: &Entries,
    caller: &Caller,
    words: &[String],
) -> Result<AnnoWords, Ended>
    ensures { IsSaid (annotated_by caller.now profile.now (map chars (map string_bytes words.now))) result }
{
    let offset_minutes = caller.clock.offset_minutes();
    anno_words(alloc, profile, words, caller.clock.moment(), offset_minutes)
}

/// Runs `anno`, from the context on.
fn begin_anno<F: Files>(
    alloc: Global,
    hand: &mut Hand,
    files: &mut F,
    profile: &Entries,
    words: AnnoWords,
) -> Result<(), CommandFault>
    requires { hand.old.mail ≡ path_of profile.now }
    ensures { Follows hand.old.run command_cause (anno_begun hand.old.run profile.now words)
        (by_hand hand.old.kept (F.state files.old)) (by_hand hand.new.kept (F.state files.new)) result }
{
    let folder = enter_folder(alloc, hand, files, profile, words.folder)?;
    let job = AnnoJob {
        folder,
        specs: words.specs,
        lines: words.lines,
        negation: negation(alloc, profile)?,
    };
    anno(alloc, hand, files, &job)
}

/// Runs `anno` by its words, which are not read yet.
pub(crate) fn run_anno<F: Files>(
    alloc: Global,
    run: u128,
    files: &mut F,
    profile: &Entries,
    caller: &Caller,
    words: &[String],
) -> Result<(), Ended>
    ensures { (left : Kept)
        × Follows run ended_cause
        (by_words (anno_begun run profile.now)
        (annotated_by caller.now profile.now (map chars (map string_bytes words.now))))
        (by_hand fresh (F.state files.old)) (by_hand left (F.state files.new)) result }
{
    let words = words_of(alloc, profile, caller, words)?;
    let mut hand = Hand::new(run, path(alloc, profile)?);
    begin_anno(alloc, &mut hand, files, profile, words)?;
    Ok(())
}
