// Locks that a run has, and what it knows of the files that commits write.
ghost use Rattle.std.specs.Prelude.{◌≡◌, ◌↔◌, IsTrue, true, List, ℕ};
ghost use Rattle.mh_base.specs.Entries.{kind_of};
ghost use Rattle.folder_files.specs.Careful.{IsKnown, HasLock, HasBase};
ghost use Rattle.folder_files.specs.Deeds.{did};
ghost use Rattle.folder_files.specs.Named as named;
ghost use Rattle.step_discipline.specs.Seen.{seen, seen_all};
ghost use Rattle.folder_files.specs.declared.step.Step.TheVariants as step;
ghost use Rattle.folder_files.specs.declared.step.Answer.TheVariants as answer;

use crate::deed::DeedRef;
use crate::named::is_temp_of;
use crate::reading::is_read;
use folder_files::Place;
use mh_base::Name;

pub fn has_lock(own: &[DeedRef], place: &Place) -> bool
    ensures { IsTrue result ↔ HasLock place.now (seen_all own.now) }
{
    match own.split_first() {
        None => false,
        Some((deed, older)) => {
            if deed.locks(place) {
                true
            } else if deed.unlocks(place) {
                false
            } else {
                has_lock(older, place)
            }
        }
    }
}

fn is_replaced(deed: &DeedRef, run: u128, place: &Place, name: &Name) -> bool
    ensures { IsTrue result ↔
        ((temp : List ℕ) × (seen deed.now ≡ did (step.Rename place.now temp name.now) answer.Done)
        × (named.is_temp_of run (kind_of temp) ≡ true)) }
{
    match deed.renames(place, name) {
        Some(temp) => is_temp_of(run, temp),
        None => false,
    }
}

fn is_known(deed: &DeedRef, run: u128, place: &Place, name: &Name) -> bool
    ensures { IsTrue result ↔ IsKnown run place.now name.now (seen deed.now) }
{
    is_read(deed, place, name) || deed.misses(place, name) || is_replaced(deed, run, place, name)
}

fn is_base(deed: &DeedRef, older: &[DeedRef], run: u128, place: &Place, name: &Name) -> bool
    ensures { IsTrue result ↔
        (IsKnown run place.now name.now (seen deed.now) × HasLock place.now (seen_all older.now)) }
{
    is_known(deed, run, place, name) && has_lock(older, place)
}

pub fn has_base(own: &[DeedRef], run: u128, place: &Place, name: &Name) -> bool
    ensures { IsTrue result ↔ HasBase run place.now name.now (seen_all own.now) }
{
    match own.split_first() {
        None => false,
        Some((deed, older)) => {
            if is_base(deed, older, run, place, name) {
                true
            } else if deed.unlocks(place) {
                false
            } else {
                has_base(older, run, place, name)
            }
        }
    }
}
