// The run of `pick`.
ghost use Rattle.std.specs.Prelude.{◌≡◌, map};
ghost use Rattle.std.specs.Str.{chars};
ghost use Rattle.std.specs.String.{string_bytes};
ghost use Rattle.file_plans.specs.Plan.{Hand as Kept, fresh};
ghost use Rattle.file_plans.specs.Follows.{Follows, by_out};
ghost use Rattle.step_plans.specs.CommandFaults.{command_cause};
ghost use Rattle.command_words.specs.Ended.{ended_cause};
ghost use Rattle.command_words.specs.Results.{IsSaid};
ghost use Rattle.command_plans.specs.Command.{by_words, pick_begun, picked_by};
ghost use Rattle.command_plans.specs.Profile.{path_of};

use command_context::{enter_folder, negation, path};
use command_plans::Caller;
use command_words::Ended;
use folder_files::Files;
use folder_words::{PickWords, pick_words};
use mh_base::Sink;
use mh_profile::Entries;
use pick_command::{PickJob, pick};
use std::alloc::Global;
use step_plans::{CommandFault, Hand};

/// What the words say, which are not read yet.
fn words_of(
    alloc: Global,
    profile: &Entries,
    caller: &Caller,
    words: &[String],
) -> Result<PickWords, Ended>
    ensures { IsSaid (picked_by caller.now profile.now (map chars (map string_bytes words.now))) result }
{
    let offset_minutes = caller.clock.offset_minutes();
    pick_words(alloc, profile, words, caller.clock.moment(), offset_minutes)
}

/// Runs `pick`, from the context on.
fn begin_pick<F: Files, O: Sink>(
    alloc: Global,
    hand: &mut Hand,
    files: &mut F,
    out: &mut O,
    profile: &Entries,
    words: PickWords,
) -> Result<(), CommandFault>
    requires { hand.old.mail ≡ path_of profile.now }
    ensures { Follows hand.old.run command_cause (pick_begun hand.old.run profile.now words)
        (by_out hand.old.kept (F.state files.old) (O.state out.old))
        (by_out hand.new.kept (F.state files.new) (O.state out.new)) result }
{
    let folder = enter_folder(alloc, hand, files, profile, words.folder)?;
    let job = PickJob {
        folder,
        specs: words.specs,
        expr: words.expr,
        marks: words.marks,
        list: words.list,
        negation: negation(alloc, profile)?,
    };
    pick(alloc, hand, files, out, &job)
}

/// Runs `pick` by its words, which are not read yet.
pub fn run_pick<F: Files, O: Sink>(
    alloc: Global,
    run: u128,
    files: &mut F,
    out: &mut O,
    profile: &Entries,
    caller: &Caller,
    words: &[String],
) -> Result<(), Ended>
    ensures { (left : Kept)
        × Follows run ended_cause
        (by_words (pick_begun run profile.now)
        (picked_by caller.now profile.now (map chars (map string_bytes words.now))))
        (by_out fresh (F.state files.old) (O.state out.old))
        (by_out left (F.state files.new) (O.state out.new)) result }
{
    let words = words_of(alloc, profile, caller, words)?;
    let mut hand = Hand::new(run, path(alloc, profile)?);
    begin_pick(alloc, &mut hand, files, out, profile, words)?;
    Ok(())
}
