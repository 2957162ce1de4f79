// The run of `inc`.
ghost use Rattle.std.specs.Prelude.{◌≡◌, ◌++◌, [], codes, IfOk, None, map};
ghost use Rattle.std.specs.Str.{chars, encode_utf8_all};
ghost use Rattle.std.specs.String.{string_bytes};
ghost use Rattle.file_plans.specs.Plan.{Hand as Kept, fresh};
ghost use Rattle.file_plans.specs.Follows.{Follows, by_out};
ghost use Rattle.step_plans.specs.CommandFaults.{command_cause};
ghost use Rattle.command_words.specs.Ended.{ended_cause};
ghost use Rattle.look_words.specs.IncWords.{inc_said};
ghost use Rattle.command_words.specs.Results.{IsNamed};
ghost use Rattle.command_plans.specs.Command.{by_words, inc_begun};
ghost use Rattle.command_plans.specs.Incorporating.{delivered as delivered_of, drop_of, inc_job as inc_job_of, job_by};
ghost use Rattle.command_plans.specs.Profile.{folder_of, path_of};
ghost use Rattle.look_commands.specs.Asked.{inc_asked_of};
ghost use Rattle.look_commands.specs.Results.{IsNamedAs, IsSaidAs};

use crate::look::{LookSaid, below_work, find_look, look};
use command_context::{enter_context, inbox, path};
use command_plans::Caller;
use command_words::{Ended, profile_sequences, read_folder};
use folder_files::{FilePath, Files};
use inc_command::{IncJob, inc};
use look_words::{IncWords, inc_words};
use mh_base::{Bytes, Duplicate, FolderName, Sink, Text};
use mh_profile::Entries;
use mh_sequences::SeqNameList;
use std::alloc::{AllocError, Global};
use step_plans::{CommandFault, Hand};

/// What is to be done, before the file is read of a format that is in one.
#[derive(Drop)]
struct IncLook {
    folder: FolderName,
    drop: FilePath,
    truncate: bool,
    silent: bool,
    change_cur: bool,
    unseen: SeqNameList,
    look: LookSaid,
}

/// The file in which the system delivers this user's mail.
fn mail_file(alloc: Global, user: &Text) -> Result<Bytes, AllocError>
    ensures { IfOk result (λ path. path ≡ codes "/var/mail/" ++ encode_utf8_all user.now) }
{
    let mut path = Bytes::from_slice(alloc, b"/var/mail/")?;
    path.extend(user.as_str().as_bytes())?;
    Ok(path)
}

/// The drop of which words say nothing: the profile's, or the one in which the system delivers.
fn delivered(alloc: Global, profile: &Entries, user: &Text) -> Result<FilePath, AllocError>
    ensures { IfOk result (λ path. path ≡ drop_of user.now profile.now None) }
{
    let text = match profile.get(b"MailDrop")? {
        Some(path) => path.duplicate(alloc)?,
        None => mail_file(alloc, user)?,
    };
    Ok(FilePath { home: true, text })
}

/// The drop.
fn drop_path(
    alloc: Global,
    profile: &Entries,
    user: &Text,
    file: Option<Text>,
) -> Result<FilePath, AllocError>
    ensures { IfOk result (λ path. path ≡ drop_of user.now profile.now file) }
{
    match file {
        Some(file) => below_work(alloc, &file),
        None => delivered(alloc, profile, user),
    }
}

/// The folder of the words, or else the profile's.
fn folder(
    alloc: Global,
    profile: &Entries,
    said: Option<FolderName>,
) -> Result<FolderName, CommandFault>
    ensures { IsNamed (folder_of said [] profile.now) result }
{
    match said {
        Some(name) => Ok(name),
        None => read_folder(alloc, &inbox(alloc, profile)?),
    }
}

/// What is to be done.
fn inc_look(
    alloc: Global,
    profile: &Entries,
    caller: &Caller,
    words: IncWords,
) -> Result<IncLook, CommandFault>
    ensures { IsNamedAs (inc_asked_of caller.now) (inc_job_of caller.now profile.now words) result }
{
    let unseen = profile_sequences(alloc, profile, b"Unseen-Sequence")?;
    let folder = folder(alloc, profile, words.folder)?;
    let look = look(alloc, &words.look)?;
    Ok(IncLook {
        folder,
        drop: drop_path(alloc, profile, &caller.user, words.file)?,
        truncate: words.truncate,
        silent: words.silent,
        change_cur: words.change_cur,
        unseen,
        look,
    })
}

/// What the words say is to be done, which are not read yet.
fn job_said(
    alloc: Global,
    profile: &Entries,
    caller: &Caller,
    words: &[String],
) -> Result<IncLook, Ended>
    ensures { IsSaidAs (inc_asked_of caller.now)
        (job_by caller.now profile.now (inc_said profile.now (map chars (map string_bytes words.now)))) result }
{
    let words = inc_words(alloc, profile, words)?;
    Ok(inc_look(alloc, profile, caller, words)?)
}

/// Runs `inc`, from the context on.
fn begin_inc<F: Files, O: Sink>(
    alloc: Global,
    hand: &mut Hand,
    files: &mut F,
    out: &mut O,
    caller: &Caller,
    asked: IncLook,
) -> Result<(), CommandFault>
    ensures { Follows hand.old.run command_cause (inc_begun hand.old.run hand.old.mail (inc_asked_of caller.now asked))
        (by_out hand.old.kept (F.state files.old) (O.state out.old))
        (by_out hand.new.kept (F.state files.new) (O.state out.new)) result }
{
    enter_context(alloc, hand, files)?;
    let job = IncJob {
        folder: asked.folder,
        drop: asked.drop,
        truncate: asked.truncate,
        silent: asked.silent,
        change_cur: asked.change_cur,
        unseen: asked.unseen,
        look: find_look(alloc, hand.run(), files, caller, asked.look)?,
    };
    inc(alloc, hand, files, out, &job)
}

/// Runs `inc` by its words, which are not read yet.
pub fn run_inc<F: Files, O: Sink>(
    alloc: Global,
    run: u128,
    files: &mut F,
    out: &mut O,
    profile: &Entries,
    caller: &Caller,
    words: &[String],
) -> Result<(), Ended>
    ensures { (left : Kept)
        × Follows run ended_cause
        (by_words (inc_begun run (path_of profile.now))
        (job_by caller.now profile.now (inc_said profile.now (map chars (map string_bytes words.now)))))
        (by_out fresh (F.state files.old) (O.state out.old))
        (by_out left (F.state files.new) (O.state out.new)) result }
{
    let asked = job_said(alloc, profile, caller, words)?;
    let mut hand = Hand::new(run, path(alloc, profile)?);
    begin_inc(alloc, &mut hand, files, out, caller, asked)?;
    Ok(())
}
