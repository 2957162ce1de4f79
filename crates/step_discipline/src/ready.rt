// Files that a run has made and synced.
ghost use Rattle.std.specs.Prelude.{◌≡◌, ◌↔◌, IsTrue, List, ℕ};
ghost use Rattle.folder_files.specs.Careful.{WasMade, WasSynced, WasReady};
ghost use Rattle.folder_files.specs.Deeds.{did, WasDone, HasFailed};
ghost use Rattle.step_discipline.specs.Seen.{seen, seen_all};
ghost use Rattle.folder_files.specs.declared.step.Step.TheVariants as step;
ghost use Rattle.folder_files.specs.declared.step.Answer.TheVariants as answer;

use crate::deed::DeedRef;
use folder_files::Place;
use mh_base::{Bytes, Name};

pub fn has_failed(own: &[DeedRef]) -> bool
    ensures { IsTrue result ↔ HasFailed (seen_all own.now) }
{
    match own.split_first() {
        None => false,
        Some((deed, older)) => deed.is_failed() || has_failed(older),
    }
}

fn is_made(deed: &DeedRef, place: &Place, name: &Name) -> bool
    ensures { IsTrue result ↔
        ((bytes : List ℕ) × (seen deed.now ≡ did (step.Create place.now name.now bytes) answer.Done)) }
{
    match deed.creates(place, name) {
        Some(_) => true,
        None => false,
    }
}

/// With whatever bytes.
pub fn was_made(own: &[DeedRef], place: &Place, name: &Name) -> bool
    ensures { IsTrue result ↔ WasMade place.now name.now (seen_all own.now) }
{
    match own.split_first() {
        None => false,
        Some((deed, older)) => is_made(deed, place, name) || was_made(older, place, name),
    }
}

fn is_synced(deed: &DeedRef, older: &[DeedRef], place: &Place, name: &Name) -> bool
    ensures { IsTrue result ↔
        ((seen deed.now ≡ did (step.SyncFile place.now name.now) answer.Done)
        × WasMade place.now name.now (seen_all older.now)) }
{
    deed.syncs_file(place, name) && was_made(older, place, name)
}

pub fn was_synced(own: &[DeedRef], place: &Place, name: &Name) -> bool
    ensures { IsTrue result ↔ WasSynced place.now name.now (seen_all own.now) }
{
    match own.split_first() {
        None => false,
        Some((deed, older)) => {
            is_synced(deed, older, place, name) || was_synced(older, place, name)
        }
    }
}

fn is_made_with(deed: &DeedRef, place: &Place, name: &Name, bytes: &[u8]) -> bool
    ensures { IsTrue result ↔ (seen deed.now ≡ did (step.Create place.now name.now bytes.now) answer.Done) }
{
    match deed.creates(place, name) {
        Some(made) => made.as_slice() == bytes,
        None => false,
    }
}

fn was_made_with(own: &[DeedRef], place: &Place, name: &Name, bytes: &[u8]) -> bool
    ensures { IsTrue result ↔ WasDone (step.Create place.now name.now bytes.now) (seen_all own.now) }
{
    match own.split_first() {
        None => false,
        Some((deed, older)) => {
            is_made_with(deed, place, name, bytes) || was_made_with(older, place, name, bytes)
        }
    }
}

fn is_ready_with(
    deed: &DeedRef,
    older: &[DeedRef],
    place: &Place,
    name: &Name,
    bytes: &[u8],
) -> bool
    ensures { IsTrue result ↔
        ((seen deed.now ≡ did (step.SyncFile place.now name.now) answer.Done)
        × WasDone (step.Create place.now name.now bytes.now) (seen_all older.now)) }
{
    deed.syncs_file(place, name) && was_made_with(older, place, name, bytes)
}

/// With these bytes.
pub fn was_ready(own: &[DeedRef], place: &Place, name: &Name, bytes: &[u8]) -> bool
    ensures { IsTrue result ↔ WasReady place.now name.now bytes.now (seen_all own.now) }
{
    match own.split_first() {
        None => false,
        Some((deed, older)) => {
            is_ready_with(deed, older, place, name, bytes) || was_ready(older, place, name, bytes)
        }
    }
}

pub fn was_folder_synced(own: &[DeedRef], place: &Place) -> bool
    ensures { IsTrue result ↔ WasDone (step.SyncFolder place.now) (seen_all own.now) }
{
    match own.split_first() {
        None => false,
        Some((deed, older)) => deed.syncs_folder(place) || was_folder_synced(older, place),
    }
}
