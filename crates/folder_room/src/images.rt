// What a crash leaves of a world.
ghost use Rattle.std.specs.Prelude.{◌≡◌, ◌||◌, ◌==◌, ◌++◌, ◌∷◌, [], IfOk, OnOk, List, ℕ, reverse, map};
ghost use Rattle.folder_files.specs.Directory.{kept_lead, touches};
ghost use Rattle.folder_files.specs.Histories.{past_of, has_acted};
ghost use Rattle.folder_files.specs.Worlds.{shown, shown_directory, directory_of, slot_of, has_run};
ghost use Rattle.folder_files.specs.declared.place.Place.{Place};
ghost use Rattle.folder_room.specs.Closing as closing;
ghost use Rattle.folder_room.specs.Crashing.{has_number, asked_at, IsCutDirectory, IsCrashBy};
ghost use Rattle.folder_room.specs.Played.{has_acted_or_is};

use crate::script::{Keep, KeepList};
use crate::settled::changed;
use folder_files::{
    Change, ChangeList, Directory, DirectoryList, Event, File, FileList, History, LockList, Place,
    RunList, Slot, SlotList, World,
};
use mh_base::{Bytes, Duplicate, Name};
use std::alloc::{AllocError, Global};

/// Which pending changes of a directory are asked for, by their places from the oldest.
#[derive(Drop, Clone, Copy)]
pub enum Asked<'a> {
    All,
    These(&'a [u64]),
}

fn has(numbers: &[u64], number: u64) -> bool
    ensures { result ≡ has_number numbers.now number }
{
    match numbers.split_first() {
        None => false,
        Some((first, rest)) => *first == number || has(rest, number),
    }
}

impl Asked<'_> {
    fn has(&self, place: u64) -> bool
        ensures { result ≡ closing.asked_of self.now place }
    {
        match self {
            Asked::All => true,
            Asked::These(numbers) => has(numbers, place),
        }
    }
}

fn asked_for<'a>(keeps: &'a [Keep], place: &Place) -> Asked<'a>
    ensures { (i : ℕ) → closing.asked_of result i ≡ asked_at keeps.now place.now i }
{
    match keeps.split_first() {
        None => Asked::All,
        Some((keep, rest)) => {
            if keep.place.same(place) {
                Asked::These(keep.changes.as_slice())
            } else {
                asked_for(rest, place)
            }
        }
    }
}

fn is_touched(change: &Change, name: &Name) -> bool
    ensures { result ≡ touches change.now name.now }
{
    match change {
        Change::Set(to, _) => to.same(name),
        Change::Gone(gone) => gone.same(name),
        Change::Moved(from, to) => from.same(name) || to.same(name),
    }
}

fn is_any_touched(change: &Change, names: &[&Name]) -> bool
    ensures { result ≡ closing.touches_any change.now (map (λ n. n.now) names.now) }
{
    match names.split_first() {
        None => false,
        Some((name, rest)) => is_touched(change, name) || is_any_touched(change, rest),
    }
}

fn is_kept(change: &Change, older: &[Change], asked: Asked, names: &[&Name]) -> bool
    ensures { result
        ≡ closing.is_kept change.now (reverse older.now) (closing.asked_of asked.entry) (map (λ n. n.now) names.now) }
{
    asked.has(older.len() as u64) || is_any_touched(change, names)
}

fn push_touched<'a>(names: &mut Vec<&'a Name>, change: &'a Change) -> Result<(), AllocError>
    ensures { OnOk result
        (map (λ n. n.now) names.new.items ≡ map (λ n. n.now) names.old.items ++ closing.names_of change.now) }
{
    match change {
        Change::Set(to, _) => names.push(to)?,
        Change::Gone(gone) => names.push(gone)?,
        Change::Moved(from, to) => {
            names.push(from)?;
            names.push(to)?;
        }
    }
    Ok(())
}

/// The slots after those of these changes that are kept, the oldest first, where later ones that are
/// kept touch these names.
fn kept<'a>(
    alloc: Global,
    slots: Vec<Slot>,
    pending: &'a [Change],
    asked: Asked,
    names: Vec<&'a Name>,
) -> Result<Vec<Slot>, AllocError>
    ensures { IfOk result
        (λ r. (x : List ℕ)
        → slot_of r.items x
        ≡ kept_lead (slot_of slots.items) (reverse pending.now)
        (closing.kept_set (reverse pending.now) (closing.asked_of asked.entry)
        (map (λ n. n.now) names.entry.items)) x) }
{
    match pending.split_last() {
        None => Ok(slots),
        Some((change, older)) => {
            let mut names = names;
            if !is_kept(change, older, asked, &names) {
                return kept(alloc, slots, older, asked, names);
            }
            push_touched(&mut names, change)?;
            let before = kept(alloc, slots, older, asked, names)?;
            changed(alloc, before, change)
        }
    }
}

fn cut_directory(
    alloc: Global,
    directory: &Directory,
    asked: Asked,
) -> Result<Directory, AllocError>
    ensures place { IfOk result (λ d. d.place ≡ directory.now.place) }
    ensures image { IfOk result
        (λ d. IsCutDirectory (closing.asked_of asked.entry) (shown_directory directory.now) (shown_directory d)) }
{
    let safe = directory.safe.duplicate(alloc)?;
    let slots = kept(
        alloc,
        safe.into_vec(),
        directory.pending.as_slice(),
        asked,
        Vec::new(alloc),
    )?;
    Ok(Directory {
        place: directory.place.duplicate(alloc)?,
        safe: SlotList::from_vec(slots),
        pending: ChangeList::new(alloc),
    })
}

fn cut_directories(
    alloc: Global,
    directories: &[Directory],
    keeps: &[Keep],
) -> Result<Vec<Directory>, AllocError>
    ensures { IfOk result
        (λ v. (p : Place)
        → IsCutDirectory (asked_at keeps.now p) (directory_of directories.now p) (directory_of v.items p)) }
{
    match directories.split_first() {
        None => Ok(Vec::new(alloc)),
        Some((directory, rest)) => {
            let mut cut = cut_directories(alloc, rest, keeps)?;
            let first = cut_directory(alloc, directory, asked_for(keeps, &directory.place))?;
            cut.insert(0, first)?;
            Ok(cut)
        }
    }
}

fn filled_bytes(alloc: Global, bytes: &[u8], fill: u8) -> Result<Bytes, AllocError>
    ensures { IfOk result (λ b. b ≡ map (λ x. fill) bytes.now) }
{
    let filled = bytes.iter().map(|_| fill).collect(alloc)?;
    Ok(Bytes::from_vec(filled))
}

fn filled(alloc: Global, file: &File, fill: u8) -> Result<File, AllocError>
    ensures { IfOk result (λ x. x ≡ closing.filled_file fill file.now) }
{
    let bytes = if file.safe {
        file.bytes.duplicate(alloc)?
    } else {
        filled_bytes(alloc, file.bytes.as_slice(), fill)?
    };
    Ok(File {
        id: file.id,
        bytes,
        safe: true,
    })
}

fn all_filled(alloc: Global, files: &[File], fill: u8) -> Result<FileList, AllocError>
    ensures { IfOk result (λ xs. xs ≡ map (closing.filled_file fill) files.now) }
{
    let mut all = FileList::new(alloc);
    for file in files {
        all.push(filled(alloc, file, fill)?)?;
    }
    Ok(all)
}

pub fn has_ended(ended: &[u128], run: u128) -> bool
    ensures { result ≡ has_run ended.now run }
{
    match ended.split_first() {
        None => false,
        Some((first, rest)) => *first == run || has_ended(rest, run),
    }
}

fn push_ended(ended: &mut RunList, run: u128) -> Result<(), AllocError>
    ensures { OnOk result ((r : ℕ) → has_run ended.new r ≡ (run == r) || has_run ended.old r) }
{
    if has_ended(ended.as_slice(), run) {
        return Ok(());
    }
    ended.push(run)
}

fn push_actor(ended: &mut RunList, event: &Event) -> Result<(), AllocError>
    ensures { OnOk result ((r : ℕ) → has_run ended.new r ≡ has_acted (event.now ∷ []) r || has_run ended.old r) }
{
    match event {
        Event::Act { run, .. } => push_ended(ended, *run),
        _ => Ok(()),
    }
}

/// The runs that ended, those that acted, and this one.
fn all_ended(
    alloc: Global,
    ended: &RunList,
    history: &History,
    run: u128,
) -> Result<RunList, AllocError>
    ensures { IfOk result
        (λ all. (r : ℕ) → has_run all r ≡ has_acted_or_is run (past_of history.now) r || has_run ended.now r) }
{
    let mut all = ended.duplicate(alloc)?;
    for event in history.as_slice() {
        push_actor(&mut all, event)?;
    }
    push_ended(&mut all, run)?;
    Ok(all)
}

/// The world that is found after a crash at a call of this run.
pub fn crashed(
    alloc: Global,
    world: &World,
    history: &History,
    run: u128,
    keeps: &KeepList,
    fill: u8,
) -> Result<World, AllocError>
    ensures { IfOk result
        (λ v. IsCrashBy keeps.now fill (has_acted_or_is run (past_of history.now)) (shown world.now) (shown v)) }
{
    let directories = cut_directories(alloc, world.directories.as_slice(), keeps.as_slice())?;
    Ok(World {
        directories: DirectoryList::from_vec(directories),
        files: all_filled(alloc, world.files.as_slice(), fill)?,
        drops: world.drops.duplicate(alloc)?,
        locks: LockList::new(alloc),
        ended: all_ended(alloc, &world.ended, history, run)?,
    })
}
