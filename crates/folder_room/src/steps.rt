// Steps: what they are answered in a world and what they make of it.
ghost use Rattle.std.specs.Prelude.{◌≡◌, IfOk, OnOk, OnErr};
ghost use Rattle.folder_files.specs.Steps.{Fits, made, made_by, left_by, unmade};
ghost use Rattle.folder_files.specs.Worlds.{shown};
ghost use Rattle.folder_files.specs.declared.step.Answer.TheVariants as answer;
ghost use Rattle.folder_room.specs.Played.{IsHonest};

use crate::{answers, files, listing, locks, naming, outside, parents};
use folder_files::{After, Answer, Step, World};
use std::alloc::{AllocError, Global};

/// What the step is answered where it doesn't fail: a lock that another run has is busy.
pub fn due(alloc: Global, world: &World, run: u128, step: &Step) -> Result<Answer, AllocError>
    ensures fits { IfOk result (λ a. Fits (shown world.now) run step.now a) }
    ensures honest { IfOk result (λ a. IsHonest (shown world.now) run step.now a) }
{
    match step {
        Step::List(place) => listing::list(alloc, world, place),
        Step::Read(place, name, limit) => answers::read(alloc, world, place, name, *limit),
        Step::MakeFolder(place) => Ok(answers::make_folder(world, place)),
        Step::Create(place, name, _) => Ok(answers::create(world, place, name)),
        Step::SyncFile(place, name) => Ok(answers::named(world, place, name)),
        Step::SyncFolder(place) => Ok(answers::placed(world, place)),
        Step::Link(place, from, to) => Ok(answers::link(world, place, from, to)),
        Step::Rename(place, from, _) => Ok(answers::named(world, place, from)),
        Step::Unlink(place, name) => Ok(answers::named(world, place, name)),
        Step::Lock(place) => Ok(answers::lock(world, run, place)),
        Step::Unlock(_) => Ok(Answer::Done),
        Step::ReadFile(path, limit) => answers::read_file(alloc, world, path, *limit),
        Step::ReadDrop { path, from, most } => answers::read_drop(alloc, world, path, *from, *most),
        Step::CutDrop(path, length) => Ok(answers::cut_drop(world, path, *length)),
    }
}

/// Makes the step.
pub fn make(alloc: Global, world: &mut World, run: u128, step: &Step) -> Result<(), AllocError>
    ensures ok { OnOk result (shown world.new ≡ made (shown world.old) run step.now) }
    ensures err { OnErr result (world.new ≡ world.old) }
{
    match step {
        Step::MakeFolder(place) => parents::make_folder(alloc, world, place),
        Step::Create(place, name, bytes) => files::create(alloc, world, place, name, bytes),
        Step::SyncFile(place, name) => {
            files::sync_file(world, place, name);
            Ok(())
        }
        Step::SyncFolder(place) => naming::sync_folder(alloc, world, place),
        Step::Link(place, from, to) => naming::link(alloc, world, place, from, to),
        Step::Rename(place, from, to) => naming::rename(alloc, world, place, from, to),
        Step::Unlink(place, name) => naming::unlink(alloc, world, place, name),
        Step::Lock(place) => locks::lock(alloc, world, run, place),
        Step::Unlock(place) => locks::unlock(alloc, world, run, place),
        Step::CutDrop(path, length) => {
            outside::cut_drop(alloc, world, path, *length);
            Ok(())
        }
        Step::List(_) => Ok(()),
        Step::Read(_, _, _) => Ok(()),
        Step::ReadFile(_, _) => Ok(()),
        Step::ReadDrop { .. } => Ok(()),
    }
}

/// Makes the step that was answered so: a lock that is busy is not taken.
pub fn make_answered(
    alloc: Global,
    world: &mut World,
    run: u128,
    step: &Step,
    answer: &Answer,
) -> Result<(), AllocError>
    ensures ok { OnOk result (shown world.new ≡ made_by (shown world.old) run step.now answer.now) }
    ensures err { OnErr result (world.new ≡ world.old) }
{
    match answer {
        Answer::Busy => Ok(()),
        _ => make(alloc, world, run, step),
    }
}

/// Leaves what a step leaves that isn't made: this run's lock falls at an Unlock.
fn leave_unmade(alloc: Global, world: &mut World, run: u128, step: &Step) -> Result<(), AllocError>
    ensures ok { OnOk result (shown world.new ≡ unmade (shown world.old) run step.now) }
    ensures err { OnErr result (world.new ≡ world.old) }
{
    match step {
        Step::Unlock(place) => locks::unlock(alloc, world, run, place),
        _ => Ok(()),
    }
}

/// What a failed step leaves: a Create may leave a file of other bytes.
pub fn leave(
    alloc: Global,
    world: &mut World,
    run: u128,
    step: &Step,
    after: &After,
) -> Result<(), AllocError>
    ensures ok { OnOk result (shown world.new ≡ left_by (shown world.old) run step.now answer.Failed after.now) }
    ensures err { OnErr result (world.new ≡ world.old) }
{
    match (after, step) {
        (After::Before, _) => leave_unmade(alloc, world, run, step),
        (After::Torn(bytes), Step::Create(place, name, _)) => {
            files::create(alloc, world, place, name, bytes)
        }
        _ => make(alloc, world, run, step),
    }
}
