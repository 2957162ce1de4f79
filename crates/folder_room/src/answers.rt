// What steps are answered in a world, where they do not fail.
ghost use Rattle.std.specs.Prelude.{◌≡◌, ◌≢◌, ◌↔◌, IsTrue, MatchBool, true, false, take, drop, IfOk, Option, Some, None, MatchOption, ℕ, List, if◌then◌else◌};
ghost use Rattle.folder_files.specs.Directory.{now_in};
ghost use Rattle.folder_files.specs.Steps as steps;
ghost use Rattle.folder_files.specs.Worlds.{shown, outside_of, holds_of};
ghost use Rattle.folder_files.specs.declared.step.Answer.TheVariants as answer;
ghost use Rattle.folder_files.specs.declared.step.Step.TheVariants as step;
ghost use Rattle.folder_room.specs.Played.{IsHonest};

use crate::disk::{is_there, leads};
use crate::files::file_position;
use crate::outside::outside_position;
use folder_files::{Answer, FilePath, Held, Outside, Place, World};
use mh_base::{Bytes, Duplicate, Name};
use std::alloc::{AllocError, Global};

/// The bytes where they are at most so many, else their length.
fn reading(alloc: Global, bytes: &Bytes, limit: u64) -> Result<Answer, AllocError>
    ensures { IfOk result (λ a. a ≡ steps.reading_of limit bytes.now) }
{
    let length = bytes.len() as u64;
    if length > limit {
        return Ok(Answer::Long(length));
    }
    Ok(Answer::Content(bytes.duplicate(alloc)?))
}

/// The bytes of a file; none where there is no such file.
fn file_reading(alloc: Global, world: &World, id: u64, limit: u64) -> Result<Answer, AllocError>
    ensures { IfOk result (λ a. a ≡ steps.reading_of limit ((shown world.now).files id).bytes) }
{
    match file_position(world.files.as_slice(), id) {
        Some(index) => reading(alloc, &world.files.as_slice()[index].bytes, limit),
        None => reading(alloc, &Bytes::new(alloc), limit),
    }
}

pub fn read(
    alloc: Global,
    world: &World,
    place: &Place,
    name: &Name,
    limit: u64,
) -> Result<Answer, AllocError>
    ensures { IfOk result
        (λ a.
        a ≡ steps.read_answer (shown world.now) limit (now_in ((shown world.now).directories place.now) name.now)) }
{
    match leads(world, place, name) {
        Some(id) => file_reading(alloc, world, id, limit),
        None => Ok(Answer::Gone),
    }
}

pub fn make_folder(world: &World, place: &Place) -> Answer
    ensures { result ≡ (if ((shown world.now).directories place.now).there then answer.Exists else answer.Done) }
{
    if is_there(world, place) {
        Answer::Exists
    } else {
        Answer::Done
    }
}

pub fn create(world: &World, place: &Place, name: &Name) -> Answer
    ensures { result ≡ steps.create_answer ((shown world.now).directories place.now) name.now }
{
    if !is_there(world, place) {
        return Answer::Gone;
    }
    match leads(world, place, name) {
        Some(_) => Answer::Exists,
        None => Answer::Done,
    }
}

/// For a step on a name that is to be there.
pub fn named(world: &World, place: &Place, name: &Name) -> Answer
    ensures { result ≡ steps.name_answer (now_in ((shown world.now).directories place.now) name.now) }
{
    match leads(world, place, name) {
        Some(_) => Answer::Done,
        None => Answer::Gone,
    }
}

/// For a step on a directory that is to be there.
pub fn placed(world: &World, place: &Place) -> Answer
    ensures { result ≡ steps.there_answer ((shown world.now).directories place.now).there }
{
    if is_there(world, place) {
        Answer::Done
    } else {
        Answer::Gone
    }
}

pub fn link(world: &World, place: &Place, from: &Name, to: &Name) -> Answer
    ensures { result
        ≡ steps.link_answer (now_in ((shown world.now).directories place.now) from.now)
        (now_in ((shown world.now).directories place.now) to.now) }
{
    let Some(_) = leads(world, place, from) else {
        return Answer::Gone;
    };
    match leads(world, place, to) {
        Some(_) => Answer::Exists,
        None => Answer::Done,
    }
}

/// The bytes of an outside file.
fn outside<'a>(drops: &'a [Outside], path: &FilePath) -> Option<&'a Bytes>
    ensures { MatchOption result (outside_of drops.now path.now ≡ None)
        (λ bytes. outside_of drops.now path.now ≡ Some bytes.now) }
{
    match outside_position(drops, path) {
        Some(index) => Some(&drops[index].bytes),
        None => None,
    }
}

#[tactic(auto, unfolding(folder_files::specs::Worlds::shown))]
fn outside_in<'a>(world: &'a World, path: &FilePath) -> Option<&'a Bytes>
    ensures { MatchOption result ((shown world.now).outside path.now ≡ None)
        (λ bytes. (shown world.now).outside path.now ≡ Some bytes.now) }
{
    outside(world.drops.as_slice(), path)
}

pub fn read_file(
    alloc: Global,
    world: &World,
    path: &FilePath,
    limit: u64,
) -> Result<Answer, AllocError>
    ensures { IfOk result (λ a. a ≡ steps.read_file_answer limit ((shown world.now).outside path.now)) }
{
    match outside_in(world, path) {
        Some(bytes) => reading(alloc, bytes, limit),
        None => Ok(Answer::Gone),
    }
}

pub fn cut_drop(world: &World, path: &FilePath, length: u64) -> Answer
    ensures { result ≡ steps.cut_answer length ((shown world.now).outside path.now) }
{
    match outside_in(world, path) {
        Some(bytes) => {
            if bytes.len() as u64 == length {
                Answer::Done
            } else {
                Answer::Grown
            }
        }
        None => Answer::Gone,
    }
}

/// As many bytes from a place on as are asked for and as there are.
fn piece_of(alloc: Global, bytes: &[u8], from: u64, most: u64) -> Result<Bytes, AllocError>
    ensures { IfOk result (λ b. b ≡ take most (drop from bytes.now)) }
{
    let length = bytes.len() as u64;
    let start = from.min(length) as usize;
    let rest = &bytes[start..];
    let end = most.min(rest.len() as u64) as usize;
    Bytes::from_slice(alloc, &rest[..end])
}

pub fn read_drop(
    alloc: Global,
    world: &World,
    path: &FilePath,
    from: u64,
    most: u64,
) -> Result<Answer, AllocError>
    ensures { IfOk result (λ a. a ≡ steps.piece_answer from most ((shown world.now).outside path.now)) }
{
    match outside_in(world, path) {
        Some(bytes) => Ok(Answer::Piece {
            bytes: piece_of(alloc, bytes.as_slice(), from, most)?,
            length: bytes.len() as u64,
        }),
        None => Ok(Answer::Gone),
    }
}

fn is_theirs(held: &Held, run: u128, place: &Place) -> bool
    ensures { IsTrue result ↔ ((held.now.run ≢ run) × (held.now.place ≡ place.now)) }
{
    held.run != run && held.place.same(place)
}

/// Whether another run has the lock.
fn is_busy(locks: &[Held], run: u128, place: &Place) -> bool
    ensures { MatchBool result ((other : ℕ) × (other ≢ run) × (holds_of locks.now place.now other ≡ true))
        ((other : ℕ) → other ≢ run → holds_of locks.now place.now other ≡ false) }
{
    match locks.split_first() {
        None => false,
        Some((held, rest)) => is_theirs(held, run, place) || is_busy(rest, run, place),
    }
}

/// For a Lock: busy where another run has it.
pub fn lock(world: &World, run: u128, place: &Place) -> Answer
    ensures fits { steps.IsLocked (shown world.now) run place.now result }
    ensures honest { IsHonest (shown world.now) run (step.Lock place.now) result }
{
    if !is_there(world, place) {
        return Answer::Gone;
    }
    if is_busy(world.locks.as_slice(), run, place) {
        Answer::Busy
    } else {
        Answer::Done
    }
}
