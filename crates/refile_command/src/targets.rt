// The folders that words name for messages to go to.
ghost use Rattle.std.specs.Prelude.{◌≡◌, ℕ, bytes_eq, IfOk, OnOk};
ghost use Rattle.std.specs.List.{list_any};
ghost use Rattle.file_plans.specs.Follows.{Follows, State};
ghost use Rattle.step_plans.specs.CommandFaults.{command_cause};
ghost use Rattle.refile_plans.specs.Refile.{names_source as source_is_named, names_without, targets_of, unless_source};
ghost use Rattle.refile_plans.specs.Targets.{with_target};

use crate::RefileJob;
use folder_files::Refusal;
use mh_base::{Duplicate, FolderName, List};
use std::alloc::{AllocError, Global};
use step_plans::CommandFault;

fn same(one: &FolderName, other: &FolderName) -> bool
    ensures { result ≡ bytes_eq one.now other.now }
{
    one.same(other)
}

fn is_named(names: &[FolderName], name: &FolderName) -> bool
    ensures { result ≡ list_any (λ other. bytes_eq other name.now) names.now }
{
    names.iter().any(|other| same(other, name))
}

/// One of them is the source.
fn names_source(job: &RefileJob) -> bool
    ensures { result ≡ source_is_named job.now }
{
    same(&job.target, &job.source) || is_named(job.others.as_slice(), &job.source)
}

/// No folder is a destination of its own messages.
pub(crate) fn ask_apart(alloc: Global, job: &RefileJob) -> Result<(), CommandFault>
    ensures { (run : ℕ) (x : State)
        → Follows run command_cause (unless_source (source_is_named job.now) job.now.source) x x result }
{
    if names_source(job) {
        return Err(CommandFault::Refused(Refusal::SameFolder(job.source.duplicate(alloc)?)));
    }
    Ok(())
}

/// Adds the name, where it is neither the source's nor there already.
fn add_target(
    alloc: Global,
    job: &RefileJob,
    names: &mut List<FolderName>,
    name: &FolderName,
) -> Result<(), AllocError>
    ensures { OnOk result (names.new ≡ with_target job.now.source names.old name.now) }
{
    if same(name, &job.source) || is_named(names.as_slice(), name) {
        return Ok(());
    }
    names.push(name.duplicate(alloc)?)
}

/// The folders that the words name for messages to go to, each once, where it is first named, but for the source.
pub(crate) fn other_targets(alloc: Global, job: &RefileJob) -> Result<List<FolderName>, AllocError>
    ensures { IfOk result (λ names. names ≡ names_without job.now.source (targets_of job.now)) }
{
    let mut names = List::new(alloc);
    add_target(alloc, job, &mut names, &job.target)?;
    for name in job.others.as_slice() {
        add_target(alloc, job, &mut names, name)?;
    }
    Ok(names)
}
