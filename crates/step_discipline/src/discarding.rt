// Held messages that stand elsewhere.
ghost use Rattle.std.specs.Prelude.{◌≡◌, ◌↔◌, ◌≤◌, IsTrue, List, ℕ, length, take, drop, []};
ghost use Rattle.folder_files.specs.Careful.{IsRead, IsSucceeded, IsSuccessorSynced, WasTaken, WasGivenAway, WasTakenAndRead, MayDiscard};
ghost use Rattle.step_discipline.specs.Seen.{seen, seen_all};
ghost use Rattle.folder_files.specs.Walks.{Walks};

use crate::copies::{put_of, was_copied_from, was_copy_put};
use crate::deed::DeedRef;
use crate::holding::{was_given_away, was_taken};
use crate::reading::is_read;
use crate::ready::was_folder_synced;
use folder_files::Place;
use mh_base::Name;

fn is_taken_and_read(
    deed: &DeedRef,
    older: &[DeedRef],
    run: u128,
    place: &Place,
    held: &Name,
) -> bool
    ensures { IsTrue result ↔
        (((bytes : List ℕ) × IsRead place.now held.now bytes (seen deed.now))
        × WasTaken run place.now held.now (seen_all older.now)) }
{
    is_read(deed, place, held) && was_taken(older, run, place, held)
}

fn was_taken_and_read(own: &[DeedRef], run: u128, place: &Place, held: &Name) -> bool
    ensures { IsTrue result ↔ WasTakenAndRead run place.now held.now (seen_all own.now) }
{
    match own.split_first() {
        None => false,
        Some((deed, older)) => {
            is_taken_and_read(deed, older, run, place, held)
                || was_taken_and_read(older, run, place, held)
        }
    }
}

/// Where the deed is a reading of the held file, a copy was put since.
fn is_succeeded(newer: &[DeedRef], deed: &DeedRef, run: u128, place: &Place, held: &Name) -> bool
    ensures { IsTrue result ↔ IsSucceeded run place.now held.now (seen_all newer.now) (seen deed.now) }
{
    match deed.reads(place, held) {
        Some(bytes) => was_copy_put(newer, run, bytes.as_slice()),
        None => true,
    }
}

fn are_succeeded(own: &[DeedRef], at: usize, run: u128, place: &Place, held: &Name) -> bool
    requires { at ≤ length own.now }
    ensures { IsTrue result ↔ Walks (λ newer d older. IsSucceeded run place.now held.now newer d)
        (seen_all (take at own.now)) (seen_all (drop at own.now)) }
{
    let (newer, rest) = own.split_at(at);
    match rest.split_first() {
        None => true,
        Some((deed, _)) => {
            is_succeeded(newer, deed, run, place, held)
                && are_succeeded(own, at + 1, run, place, held)
        }
    }
}

/// Where the deed puts a successor of the held file, the folder was synced since.
fn is_successor_synced(
    newer: &[DeedRef],
    deed: &DeedRef,
    older: &[DeedRef],
    run: u128,
    place: &Place,
    held: &Name,
) -> bool
    ensures { IsTrue result ↔ IsSuccessorSynced run place.now held.now (seen_all newer.now) (seen deed.now)
        (seen_all older.now) }
{
    match put_of(deed, run) {
        Some(put) => {
            !was_copied_from(older, place, held, &put) || was_folder_synced(newer, put.place)
        }
        None => true,
    }
}

fn are_synced(own: &[DeedRef], at: usize, run: u128, place: &Place, held: &Name) -> bool
    requires { at ≤ length own.now }
    ensures { IsTrue result ↔ Walks (IsSuccessorSynced run place.now held.now) (seen_all (take at own.now))
        (seen_all (drop at own.now)) }
{
    let (newer, rest) = own.split_at(at);
    match rest.split_first() {
        None => true,
        Some((deed, older)) => {
            is_successor_synced(newer, deed, older, run, place, held)
                && are_synced(own, at + 1, run, place, held)
        }
    }
}

fn is_kept_back(own: &[DeedRef], run: u128, place: &Place, held: &Name) -> bool
    ensures { IsTrue result ↔
        ((WasGivenAway place.now held.now (seen_all own.now) → ⊥)
        × WasTakenAndRead run place.now held.now (seen_all own.now)) }
{
    !was_given_away(own, place, held) && was_taken_and_read(own, run, place, held)
}

fn stands_elsewhere(own: &[DeedRef], run: u128, place: &Place, held: &Name) -> bool
    ensures { IsTrue result ↔
        (Walks (λ newer d older. IsSucceeded run place.now held.now newer d) [] (seen_all own.now)
        × Walks (IsSuccessorSynced run place.now held.now) [] (seen_all own.now)) }
{
    are_succeeded(own, 0, run, place, held) && are_synced(own, 0, run, place, held)
}

/// Whether the message that is held aside may go, since it stands elsewhere.
pub fn may_discard(own: &[DeedRef], run: u128, place: &Place, held: &Name) -> bool
    ensures { IsTrue result ↔ MayDiscard run place.now held.now (seen_all own.now) }
{
    is_kept_back(own, run, place, held) && stands_elsewhere(own, run, place, held)
}
