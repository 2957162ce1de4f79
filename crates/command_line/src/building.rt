// The run of `mhbuild`.
ghost use Rattle.std.specs.Prelude.{◌≡◌, IfOk, map};
ghost use Rattle.std.specs.Str.{chars};
ghost use Rattle.std.specs.String.{string_bytes};
ghost use Rattle.file_plans.specs.Plan.{Hand as Kept, fresh};
ghost use Rattle.file_plans.specs.Follows.{Follows, all};
ghost use Rattle.step_plans.specs.CommandFaults.{command_cause};
ghost use Rattle.command_words.specs.Ended.{ended_cause};
ghost use Rattle.build_words.specs.BuildWords.{build_said};
ghost use Rattle.command_plans.specs.Command.{build_begun, build_job as build_job_of, by_words};
ghost use Rattle.command_plans.specs.Profile.{path_of};
ghost use Rattle.mh_profile.specs.Reading.{entries_seen};

use build_words::{BuildWords, build_words};
use command_context::{enter_context, negation, path, stored_folder};
use command_words::Ended;
use draft_contents::Forwarding;
use folder_files::Files;
use mh_base::{Sink, Source};
use mh_profile::Entries;
use mhbuild_command::{BuildJob, mhbuild};
use std::alloc::{AllocError, Global};
use step_plans::{CommandFault, Hand};

/// What is to be done, once the context is read.
fn build_job(
    alloc: Global,
    hand: &Hand,
    profile: &Entries,
    words: BuildWords,
) -> Result<BuildJob, AllocError>
    ensures { IfOk result (λ job. job ≡ build_job_of words (entries_seen hand.now.kept.context) profile.now) }
{
    let forwarding = Forwarding {
        current: stored_folder(alloc, hand.context(), profile)?,
        negation: negation(alloc, profile)?,
    };
    Ok(BuildJob {
        draft: words.draft,
        forwarding,
    })
}

/// Runs `mhbuild`, from the context on.
fn begin_mhbuild<F: Files, I: Source, O: Sink>(
    alloc: Global,
    hand: &mut Hand,
    files: &mut F,
    input: &mut I,
    out: &mut O,
    profile: &Entries,
    words: BuildWords,
) -> Result<(), CommandFault>
    requires { hand.old.mail ≡ path_of profile.now }
    ensures { Follows hand.old.run command_cause (build_begun hand.old.run profile.now words)
        (all hand.old.kept (F.state files.old) (I.state input.old) (O.state out.old))
        (all hand.new.kept (F.state files.new) (I.state input.new) (O.state out.new)) result }
{
    enter_context(alloc, hand, files)?;
    let job = build_job(alloc, hand, profile, words)?;
    mhbuild(alloc, hand, files, input, out, &job)
}

/// Runs `mhbuild` by its words, which are not read yet.
pub(crate) fn run_mhbuild<F: Files, I: Source, O: Sink>(
    alloc: Global,
    run: u128,
    files: &mut F,
    input: &mut I,
    out: &mut O,
    profile: &Entries,
    words: &[String],
) -> Result<(), Ended>
    ensures { (left : Kept)
        × Follows run ended_cause
        (by_words (build_begun run profile.now) (build_said profile.now (map chars (map string_bytes words.now))))
        (all fresh (F.state files.old) (I.state input.old) (O.state out.old))
        (all left (F.state files.new) (I.state input.new) (O.state out.new)) result }
{
    let words = build_words(alloc, profile, words)?;
    let mut hand = Hand::new(run, path(alloc, profile)?);
    begin_mhbuild(alloc, &mut hand, files, input, out, profile, words)?;
    Ok(())
}
