// The step that makes a folder, and with it the directories above.
ghost use Rattle.std.specs.Prelude.{◌≡◌, ◌∷◌, ◌||◌, ◌&&◌, ◌==◌, IfOk, OnOk, OnErr, ℕ, List, false};
ghost use Rattle.folder_files.specs.Places.{is_parent, same_place};
ghost use Rattle.folder_files.specs.Steps.{made};
ghost use Rattle.folder_files.specs.Worlds.{shown};
ghost use Rattle.folder_files.specs.declared.place.Place.{Place};
ghost use Rattle.folder_files.specs.declared.place.Place.TheVariants as place;
ghost use Rattle.folder_files.specs.declared.step.Step.TheVariants as step;
ghost use Rattle.folder_room.specs.Parents.{is_among, is_above, with_all_made};

use crate::disk::is_there;
use folder_files::{ChangeList, Directory, Place, SlotList, World};
use mh_base::{Bytes, Duplicate, FolderFault, FolderName, Text};
use std::alloc::{AllocError, Global};

/// Adds the folder of this name, which stands behind a plus sign, where a folder may be called so.
fn push_folder(
    alloc: Global,
    above: &mut Vec<Place>,
    path: &Bytes,
    word: &Text,
) -> Result<(), AllocError>
    ensures { (name : List ℕ) → word.now ≡ 43 ∷ name
        → OnOk result
        ((p : Place) → is_among above.new.items p ≡ is_among above.old.items p || is_above path.now name p) }
{
    match FolderName::read(alloc, word) {
        Ok(name) => {
            above.push(Place::Folder(path.duplicate(alloc)?, name))?;
            Ok(())
        }
        Err(FolderFault::BadFolder) => Ok(()),
        Err(FolderFault::Memory) => Err(AllocError),
    }
}

/// The same behind a slash, and else nothing.
fn push_above(
    alloc: Global,
    above: &mut Vec<Place>,
    path: &Bytes,
    word: &Text,
    next: char,
) -> Result<(), AllocError>
    ensures { (name : List ℕ) → word.now ≡ 43 ∷ name
        → OnOk result
        ((p : Place)
        → is_among above.new.items p ≡ is_among above.old.items p
        || ((next == 47) && is_above path.now name p)) }
{
    if next == '/' {
        return push_folder(alloc, above, path, word);
    }
    Ok(())
}

/// The folders above, by the slashes of the name.
fn folders_above(alloc: Global, path: &Bytes, name: &FolderName) -> Result<Vec<Place>, AllocError>
    ensures { IfOk result
        (λ v. (p : Place) → is_among (place.Mail path.now ∷ v.items) p ≡ is_parent p (place.Folder path.now name.now)) }
{
    let mut above = Vec::new(alloc);
    let mut word = Text::new(alloc);
    word.push('+')?;
    for c in name.text().as_str().chars() {
        push_above(alloc, &mut above, path, &word, c)?;
        word.push(c)?;
    }
    Ok(above)
}

/// The directories that are made with this one.
fn parents(alloc: Global, place: &Place) -> Result<Vec<Place>, AllocError>
    ensures { IfOk result (λ v. (p : Place) → is_among v.items p ≡ is_parent p place.now) }
{
    match place {
        Place::Folder(path, name) => {
            let mut parents = folders_above(alloc, path, name)?;
            parents.insert(0, Place::Mail(path.duplicate(alloc)?))?;
            Ok(parents)
        }
        _ => Ok(Vec::new(alloc)),
    }
}

/// Makes those of these directories that aren't there.
fn make_all(alloc: Global, world: &mut World, places: &[Place]) -> Result<(), AllocError>
    ensures ok { OnOk result (shown world.new ≡ with_all_made (shown world.old) places.now) }
    ensures err { OnErr result (world.new ≡ world.old) }
{
    let Some((place, rest)) = places.split_first() else {
        return Ok(());
    };
    if is_there(world, place) {
        return make_all(alloc, world, rest);
    }
    world.directories.push(Directory {
        place: place.duplicate(alloc)?,
        safe: SlotList::new(alloc),
        pending: ChangeList::new(alloc),
    })?;
    match make_all(alloc, world, rest) {
        Ok(()) => Ok(()),
        Err(wanting) => {
            world.directories.pop();
            Err(wanting)
        }
    }
}

/// The directory and those above are there.
pub fn make_folder(alloc: Global, world: &mut World, place: &Place) -> Result<(), AllocError>
    ensures ok { (run : ℕ) → OnOk result (shown world.new ≡ made (shown world.old) run (step.MakeFolder place.now)) }
    ensures err { OnErr result (world.new ≡ world.old) }
{
    let mut places = parents(alloc, place)?;
    places.insert(0, place.duplicate(alloc)?)?;
    make_all(alloc, world, &places)
}
