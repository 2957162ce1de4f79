// `refile`: messages go to other folders.
ghost use Rattle.std.specs.Prelude.{◌≡◌, map};
ghost use Rattle.file_plans.specs.Follows.{Follows, by_hand};
ghost use Rattle.step_plans.specs.CommandFaults.{command_cause};
ghost use Rattle.command_stages.specs.Chosen.{IsValue};
ghost use Rattle.refile_plans.specs.Gathers.{WorksIf};
ghost use Rattle.refile_plans.specs.RefilePledge.{PromisesSteps};
ghost use Rattle.refile_plans.specs.Refile.{destination_of, opened_refiled, refile as refile_plan, refile_chosen, said_refiled};

use crate::RefileJob;
use crate::destinations::destinations;
use crate::gathering::begin_all;
use crate::letting_go::end_all;
use crate::moving::move_messages;
use crate::rooms::ask_room;
use crate::targets::{ask_apart, other_targets};
use command_stages::{choose, make_current};
use folder_files::Files;
use mh_base::List;
use mh_sequences::NumSet;
use opened_folders::{Opened, open};
use std::alloc::Global;
use step_plans::{CommandFault, Hand};

/// The messages that the words choose.
fn chosen(alloc: Global, job: &RefileJob, source: &Opened) -> Result<NumSet, CommandFault>
    ensures { IsValue (refile_chosen job.now source.now.listing source.now.sequences) result }
{
    choose(
        alloc,
        &job.specs,
        source.listing(),
        source.sequences(),
        job.negation.as_slice(),
    )
}

/// The messages that the words choose go to these folders, where none is the source and each has room.
fn refile_said<F: Files>(
    alloc: Global,
    hand: &mut Hand,
    files: &mut F,
    job: &RefileJob,
    source: &mut Opened,
    others: &[Opened],
) -> Result<(), CommandFault>
    ensures plan { Follows hand.old.run command_cause
        (said_refiled hand.old.run hand.old.mail job.now source.old (map destination_of others.now))
        (by_hand hand.old.kept (F.state files.old)) (by_hand hand.new.kept (F.state files.new)) result }
    ensures same { (hand.new.run ≡ hand.old.run) × (hand.new.mail ≡ hand.old.mail) }
    ensures place { source.new.place ≡ source.old.place }
{
    let to = destinations(alloc, others)?;
    let chosen = chosen(alloc, job, source)?;
    ask_apart(alloc, job)?;
    ask_room(alloc, to.as_slice(), chosen.len())?;
    move_messages(alloc, hand, files, job, source, chosen, to)
}

/// The work on the source and on destinations, all of which were begun.
fn refile_opened<F: Files>(
    alloc: Global,
    hand: &mut Hand,
    files: &mut F,
    job: &RefileJob,
    source: &mut Opened,
    others: &[Opened],
) -> Result<(), CommandFault>
    ensures plan { Follows hand.old.run command_cause
        (opened_refiled hand.old.run hand.old.mail job.now source.old others.now)
        (by_hand hand.old.kept (F.state files.old)) (by_hand hand.new.kept (F.state files.new)) result }
    ensures same { (hand.new.run ≡ hand.old.run) × (hand.new.mail ≡ hand.old.mail) }
    ensures place { source.new.place ≡ source.old.place }
{
    refile_said(alloc, hand, files, job, source, others)?;
    if job.set_current {
        make_current(alloc, hand, files, &job.source)
    } else {
        Ok(())
    }
}

/// The same, where all were begun; else nothing is done.
fn refile_gathered<F: Files>(
    alloc: Global,
    hand: &mut Hand,
    files: &mut F,
    job: &RefileJob,
    source: &mut Opened,
    others: &[Opened],
    begun: Result<(), CommandFault>,
) -> Result<(), CommandFault>
    ensures plan { WorksIf hand.old.run (opened_refiled hand.old.run hand.old.mail job.now source.old others.now) begun
        (by_hand hand.old.kept (F.state files.old)) (by_hand hand.new.kept (F.state files.new)) result }
    ensures same { (hand.new.run ≡ hand.old.run) × (hand.new.mail ≡ hand.old.mail) }
    ensures place { source.new.place ≡ source.old.place }
{
    match begun {
        Ok(()) => refile_opened(alloc, hand, files, job, source, others),
        Err(fault) => Err(fault),
    }
}

/// Moves the messages that the job's words choose of the source, which it begins, to the other folders that they name,
/// which are made where they are missing: each is held aside, copied to each of them, and let go once all copies are
/// safe; then they leave the source's sequences. Or they are copied and stay. At last the source becomes the current
/// folder, where it is to.
pub fn refile<F: Files>(
    alloc: Global,
    hand: &mut Hand,
    files: &mut F,
    job: &RefileJob,
) -> Result<(), CommandFault>
    ensures plan { Follows hand.old.run command_cause (refile_plan hand.old.run hand.old.mail job.now)
        (by_hand hand.old.kept (F.state files.old)) (by_hand hand.new.kept (F.state files.new)) result }
    ensures steps { PromisesSteps hand.old.run hand.old.mail job.now (by_hand hand.old.kept (F.state files.old))
        (by_hand hand.new.kept (F.state files.new)) }
    ensures run { hand.new.run ≡ hand.old.run }
    ensures mail { hand.new.mail ≡ hand.old.mail }
{
    let names = other_targets(alloc, job)?;
    let mut others = List::new(alloc);
    let mut source = open(alloc, hand, files, &job.source)?;
    let begun = begin_all(alloc, hand, files, names.as_slice(), &mut others);
    let done = refile_gathered(
        alloc,
        hand,
        files,
        job,
        &mut source,
        others.as_slice(),
        begun,
    );
    end_all(alloc, hand.run(), files, &source, others.as_slice(), done)
}
