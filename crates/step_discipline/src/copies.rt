// Copies of a message that a run has put into folders.
ghost use Rattle.std.specs.Prelude.{◌≡◌, ◌≢◌, ◌↔◌, IsTrue, MatchOption, List, ℕ};
ghost use Rattle.folder_files.specs.Annotations.{Annotates};
ghost use Rattle.folder_files.specs.Careful.{IsRead, IsPutLink, WasPutFrom, WasCopied, IsCopyPut, WasReadAs, WasCopiedFrom, IsSuccessorPut};
ghost use Rattle.folder_files.specs.Deeds.{did, Once};
ghost use Rattle.step_discipline.specs.Seen.{seen, seen_all};
ghost use Rattle.folder_files.specs.declared.place.Place.{Place};
ghost use Rattle.folder_files.specs.declared.step.Step.TheVariants as step;
ghost use Rattle.folder_files.specs.declared.step.Answer.TheVariants as answer;

use crate::annotation::annotates;
use crate::deed::DeedRef;
use crate::named::{is_folder_place, is_number, is_temp_of};
use folder_files::{Answer, Place, Step};
use mh_base::Name;

/// A file that a run has put into a folder, by the name under which it made the file.
#[derive(Drop, Clone, Copy)]
pub struct PutRef<'a> {
    pub place: &'a Place,
    pub temp: &'a Name,
}

/// What the run put, where the deed is a put.
pub fn put_of<'a>(deed: &DeedRef<'a>, run: u128) -> Option<PutRef<'a>>
    ensures { MatchOption result ((q : Place) (temp : List ℕ) → IsPutLink run q temp (seen deed.now) → ⊥)
        (λ p. IsPutLink run p.place.now p.temp.now (seen deed.now)) }
{
    match (deed.step, deed.answer) {
        (Step::Link(place, temp, number), Answer::Done)
            if is_folder_place(place) && is_temp_of(run, temp) && is_number(number) => {
            Some(PutRef { place, temp })
        }
        _ => None,
    }
}

fn is_put_from(deed: &DeedRef, run: u128, put: &PutRef) -> bool
    ensures { IsTrue result ↔ IsPutLink run put.now.place.now put.now.temp.now (seen deed.now) }
{
    match put_of(deed, run) {
        Some(other) => other.place.same(put.place) && other.temp.same(put.temp),
        None => false,
    }
}

/// Whether the file of this name was put.
pub fn was_put_from(own: &[DeedRef], run: u128, put: &PutRef) -> bool
    ensures { IsTrue result ↔ WasPutFrom run put.now.place.now put.now.temp.now (seen_all own.now) }
{
    match own.split_first() {
        None => false,
        Some((deed, older)) => is_put_from(deed, run, put) || was_put_from(older, run, put),
    }
}

fn is_copy(deed: &DeedRef, place: &Place, temp: &Name, bytes: &[u8]) -> bool
    ensures { IsTrue result ↔
        ((copy : List ℕ) × (seen deed.now ≡ did (step.Create place.now temp.now copy) answer.Done)
        × Annotates bytes.now copy) }
{
    match deed.creates(place, temp) {
        Some(copy) => annotates(copy.as_slice(), bytes),
        None => false,
    }
}

fn was_copied(own: &[DeedRef], place: &Place, temp: &Name, bytes: &[u8]) -> bool
    ensures { IsTrue result ↔ WasCopied place.now temp.now bytes.now (seen_all own.now) }
{
    match own.split_first() {
        None => false,
        Some((deed, older)) => {
            is_copy(deed, place, temp, bytes) || was_copied(older, place, temp, bytes)
        }
    }
}

fn is_copy_put(deed: &DeedRef, older: &[DeedRef], run: u128, bytes: &[u8]) -> bool
    ensures { IsTrue result ↔ IsCopyPut run bytes.now (seen deed.now) (seen_all older.now) }
{
    match put_of(deed, run) {
        Some(put) => was_copied(older, put.place, put.temp, bytes),
        None => false,
    }
}

pub fn was_copy_put(own: &[DeedRef], run: u128, bytes: &[u8]) -> bool
    ensures { IsTrue result ↔ Once (IsCopyPut run bytes.now) (seen_all own.now) }
{
    match own.split_first() {
        None => false,
        Some((deed, older)) => {
            is_copy_put(deed, older, run, bytes) || was_copy_put(older, run, bytes)
        }
    }
}

fn is_read_as(deed: &DeedRef, place: &Place, held: &Name, copy: &[u8]) -> bool
    ensures { IsTrue result ↔
        ((bytes : List ℕ) × IsRead place.now held.now bytes (seen deed.now) × Annotates bytes copy.now) }
{
    match deed.reads(place, held) {
        Some(bytes) => annotates(copy, bytes.as_slice()),
        None => false,
    }
}

fn was_read_as(own: &[DeedRef], place: &Place, held: &Name, copy: &[u8]) -> bool
    ensures { IsTrue result ↔ WasReadAs place.now held.now copy.now (seen_all own.now) }
{
    match own.split_first() {
        None => false,
        Some((deed, older)) => {
            is_read_as(deed, place, held, copy) || was_read_as(older, place, held, copy)
        }
    }
}

fn is_copied_from(
    deed: &DeedRef,
    older: &[DeedRef],
    place: &Place,
    held: &Name,
    put: &PutRef,
) -> bool
    ensures { IsTrue result ↔
        ((copy : List ℕ) × (seen deed.now ≡ did (step.Create put.now.place.now put.now.temp.now copy) answer.Done)
        × WasReadAs place.now held.now copy (seen_all older.now)) }
{
    match deed.creates(put.place, put.temp) {
        Some(copy) => was_read_as(older, place, held, copy.as_slice()),
        None => false,
    }
}

/// Whether the file that was put is a copy of what an earlier reading of the held file gave.
pub fn was_copied_from(own: &[DeedRef], place: &Place, held: &Name, put: &PutRef) -> bool
    ensures { IsTrue result ↔ WasCopiedFrom place.now held.now put.now.place.now put.now.temp.now (seen_all own.now) }
{
    match own.split_first() {
        None => false,
        Some((deed, older)) => {
            is_copied_from(deed, older, place, held, put)
                || was_copied_from(older, place, held, put)
        }
    }
}
