// Messages that a run has taken, and held files that it has given away.
ghost use Rattle.std.specs.Prelude.{◌≡◌, ◌↔◌, IsTrue, true, List, ℕ};
ghost use Rattle.mh_base.specs.Entries.{kind_of};
ghost use Rattle.folder_files.specs.Careful.{WasTaken, WasGiven, WasGivenAway};
ghost use Rattle.folder_files.specs.Deeds.{did, WasDone};
ghost use Rattle.folder_files.specs.Named as named;
ghost use Rattle.step_discipline.specs.Seen.{seen, seen_all};
ghost use Rattle.folder_files.specs.declared.step.Step.TheVariants as step;
ghost use Rattle.folder_files.specs.declared.step.Answer.TheVariants as answer;

use crate::deed::DeedRef;
use crate::named::{is_number, is_taking};
use folder_files::Place;
use mh_base::Name;

fn is_renamed(deed: &DeedRef, place: &Place, from: &Name, to: &Name) -> bool
    ensures { IsTrue result ↔ (seen deed.now ≡ did (step.Rename place.now from.now to.now) answer.Done) }
{
    match deed.renames(place, to) {
        Some(old) => old.same(from),
        None => false,
    }
}

pub fn was_renamed(own: &[DeedRef], place: &Place, from: &Name, to: &Name) -> bool
    ensures { IsTrue result ↔ WasDone (step.Rename place.now from.now to.now) (seen_all own.now) }
{
    match own.split_first() {
        None => false,
        Some((deed, older)) => {
            is_renamed(deed, place, from, to) || was_renamed(older, place, from, to)
        }
    }
}

fn is_taken(deed: &DeedRef, run: u128, place: &Place, held: &Name) -> bool
    ensures { IsTrue result ↔
        ((number : List ℕ) × (seen deed.now ≡ did (step.Rename place.now number held.now) answer.Done)
        × (named.is_taking run (kind_of number) (kind_of held.now) ≡ true)) }
{
    match deed.renames(place, held) {
        Some(number) => is_taking(run, number, held),
        None => false,
    }
}

pub fn was_taken(own: &[DeedRef], run: u128, place: &Place, held: &Name) -> bool
    ensures { IsTrue result ↔ WasTaken run place.now held.now (seen_all own.now) }
{
    match own.split_first() {
        None => false,
        Some((deed, older)) => {
            is_taken(deed, run, place, held) || was_taken(older, run, place, held)
        }
    }
}

fn is_given(deed: &DeedRef, place: &Place, held: &Name) -> bool
    ensures { IsTrue result ↔
        ((number : List ℕ) × (seen deed.now ≡ did (step.Link place.now held.now number) answer.Done)
        × (named.is_number (kind_of number) ≡ true)) }
{
    match deed.links(place, held) {
        Some(number) => is_number(number),
        None => false,
    }
}

fn was_given(own: &[DeedRef], place: &Place, held: &Name) -> bool
    ensures { IsTrue result ↔ WasGiven place.now held.now (seen_all own.now) }
{
    match own.split_first() {
        None => false,
        Some((deed, older)) => is_given(deed, place, held) || was_given(older, place, held),
    }
}

fn is_given_away(deed: &DeedRef, older: &[DeedRef], place: &Place, held: &Name) -> bool
    ensures { IsTrue result ↔
        ((seen deed.now ≡ did (step.SyncFolder place.now) answer.Done)
        × WasGiven place.now held.now (seen_all older.now)) }
{
    deed.syncs_folder(place) && was_given(older, place, held)
}

/// A number was linked to the held file, and then the folder was synced.
pub fn was_given_away(own: &[DeedRef], place: &Place, held: &Name) -> bool
    ensures { IsTrue result ↔ WasGivenAway place.now held.now (seen_all own.now) }
{
    match own.split_first() {
        None => false,
        Some((deed, older)) => {
            is_given_away(deed, older, place, held) || was_given_away(older, place, held)
        }
    }
}
