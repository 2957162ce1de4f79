// The run of `mark`.
ghost use Rattle.std.specs.Prelude.{◌≡◌, map};
ghost use Rattle.std.specs.Str.{chars};
ghost use Rattle.std.specs.String.{string_bytes};
ghost use Rattle.file_plans.specs.Plan.{Hand as Kept, fresh};
ghost use Rattle.file_plans.specs.Follows.{Follows, by_out};
ghost use Rattle.step_plans.specs.CommandFaults.{command_cause};
ghost use Rattle.command_words.specs.Ended.{ended_cause};
ghost use Rattle.folder_words.specs.MarkWords.{mark_said};
ghost use Rattle.command_plans.specs.Command.{by_words, mark_begun};
ghost use Rattle.command_plans.specs.Profile.{path_of};

use command_context::{enter_folder, negation, path};
use command_words::Ended;
use folder_files::Files;
use folder_words::{MarkWords, mark_words};
use mark_command::{MarkJob, mark};
use mh_base::Sink;
use mh_profile::Entries;
use std::alloc::Global;
use step_plans::{CommandFault, Hand};

/// Runs `mark`, from the context on.
fn begin_mark<F: Files, O: Sink>(
    alloc: Global,
    hand: &mut Hand,
    files: &mut F,
    out: &mut O,
    profile: &Entries,
    words: MarkWords,
) -> Result<(), CommandFault>
    requires { hand.old.mail ≡ path_of profile.now }
    ensures { Follows hand.old.run command_cause (mark_begun hand.old.run profile.now words)
        (by_out hand.old.kept (F.state files.old) (O.state out.old))
        (by_out hand.new.kept (F.state files.new) (O.state out.new)) result }
{
    let folder = enter_folder(alloc, hand, files, profile, words.folder)?;
    let job = MarkJob {
        folder,
        specs: words.specs,
        names: words.names,
        act: words.act,
        list: words.list,
        public: words.public,
        negation: negation(alloc, profile)?,
    };
    mark(alloc, hand, files, out, &job)
}

/// Runs `mark` by its words, which are not read yet.
pub fn run_mark<F: Files, O: Sink>(
    alloc: Global,
    run: u128,
    files: &mut F,
    out: &mut O,
    profile: &Entries,
    words: &[String],
) -> Result<(), Ended>
    ensures { (left : Kept)
        × Follows run ended_cause
        (by_words (mark_begun run profile.now) (mark_said profile.now (map chars (map string_bytes words.now))))
        (by_out fresh (F.state files.old) (O.state out.old))
        (by_out left (F.state files.new) (O.state out.new)) result }
{
    let words = mark_words(alloc, profile, words)?;
    let mut hand = Hand::new(run, path(alloc, profile)?);
    begin_mark(alloc, &mut hand, files, out, profile, words)?;
    Ok(())
}
