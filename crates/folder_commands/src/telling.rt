// The run of `folder`.
ghost use Rattle.std.specs.Prelude.{◌≡◌, map};
ghost use Rattle.std.specs.Str.{chars};
ghost use Rattle.std.specs.String.{string_bytes};
ghost use Rattle.file_plans.specs.Plan.{Hand as Kept, fresh};
ghost use Rattle.file_plans.specs.Follows.{Follows, by_out};
ghost use Rattle.step_plans.specs.CommandFaults.{command_cause};
ghost use Rattle.command_words.specs.Ended.{ended_cause};
ghost use Rattle.folder_words.specs.TellWords.{tell_said};
ghost use Rattle.command_plans.specs.Command.{by_words, folder_begun, pack_begun, task_begun, tell_begun};
ghost use Rattle.command_plans.specs.Profile.{path_of};

use command_context::{enter_folder, negation, path};
use command_words::Ended;
use folder_command::{FolderJob, folder};
use folder_files::Files;
use folder_words::{FolderWords, folder_words};
use mh_base::Sink;
use mh_profile::Entries;
use pack_command::{PackJob, pack};
use std::alloc::Global;
use step_plans::{CommandFault, Hand};

/// Tells of a folder, from the context on.
fn begin_folder<F: Files, O: Sink>(
    alloc: Global,
    hand: &mut Hand,
    files: &mut F,
    out: &mut O,
    profile: &Entries,
    words: FolderWords,
) -> Result<(), CommandFault>
    requires { hand.old.mail ≡ path_of profile.now }
    ensures { Follows hand.old.run command_cause (tell_begun hand.old.run profile.now words)
        (by_out hand.old.kept (F.state files.old) (O.state out.old))
        (by_out hand.new.kept (F.state files.new) (O.state out.new)) result }
{
    let name = enter_folder(alloc, hand, files, profile, words.folder)?;
    let job = FolderJob {
        folder: name,
        specs: words.specs,
        negation: negation(alloc, profile)?,
    };
    folder(alloc, hand, files, out, &job)
}

/// Numbers the messages of a folder anew, from the context on.
fn begin_pack<F: Files, O: Sink>(
    alloc: Global,
    hand: &mut Hand,
    files: &mut F,
    out: &mut O,
    profile: &Entries,
    words: FolderWords,
) -> Result<(), CommandFault>
    requires { hand.old.mail ≡ path_of profile.now }
    ensures { Follows hand.old.run command_cause (pack_begun hand.old.run profile.now words)
        (by_out hand.old.kept (F.state files.old) (O.state out.old))
        (by_out hand.new.kept (F.state files.new) (O.state out.new)) result }
{
    let folder = enter_folder(alloc, hand, files, profile, words.folder)?;
    pack(alloc, hand, files, out, &PackJob { folder })
}

/// Runs `folder`, from the context on.
#[tactic(auto, unfolding(command_plans::specs::Command::task_begun))]
fn begin_task<F: Files, O: Sink>(
    alloc: Global,
    hand: &mut Hand,
    files: &mut F,
    out: &mut O,
    profile: &Entries,
    words: FolderWords,
) -> Result<(), CommandFault>
    requires { hand.old.mail ≡ path_of profile.now }
    ensures { Follows hand.old.run command_cause (task_begun hand.old.run profile.now words words.pack)
        (by_out hand.old.kept (F.state files.old) (O.state out.old))
        (by_out hand.new.kept (F.state files.new) (O.state out.new)) result }
{
    if words.pack {
        begin_pack(alloc, hand, files, out, profile, words)
    } else {
        begin_folder(alloc, hand, files, out, profile, words)
    }
}

/// Runs `folder` by its words, which are not read yet.
pub fn run_folder<F: Files, O: Sink>(
    alloc: Global,
    run: u128,
    files: &mut F,
    out: &mut O,
    profile: &Entries,
    words: &[String],
) -> Result<(), Ended>
    ensures { (left : Kept)
        × Follows run ended_cause
        (by_words (folder_begun run profile.now) (tell_said profile.now (map chars (map string_bytes words.now))))
        (by_out fresh (F.state files.old) (O.state out.old))
        (by_out left (F.state files.new) (O.state out.new)) result }
{
    let words = folder_words(alloc, profile, words)?;
    let mut hand = Hand::new(run, path(alloc, profile)?);
    begin_task(alloc, &mut hand, files, out, profile, words)?;
    Ok(())
}
