// Names by their kinds.
ghost use Rattle.std.specs.Prelude.{◌≡◌, ◌↔◌, IsTrue};
ghost use Rattle.mh_base.specs.Entries.{kind_of};
ghost use Rattle.folder_files.specs.Named as named;
ghost use Rattle.folder_files.specs.Places.{is_folder};

use crate::ends::before;
use folder_files::Place;
use mh_base::{Entry, Name, entry_of};

pub fn is_temp(name: &Name) -> bool
    ensures { result ≡ named.is_temp (kind_of name.now) }
{
    matches!(entry_of(name.bytes()), Entry::Temp(_, _))
}

pub fn is_temp_of(run: u128, name: &Name) -> bool
    ensures { result ≡ named.is_temp_of run (kind_of name.now) }
{
    match entry_of(name.bytes()) {
        Entry::Temp(owner, _) => owner == run,
        _ => false,
    }
}

pub fn is_number(name: &Name) -> bool
    ensures { result ≡ named.is_number (kind_of name.now) }
{
    matches!(entry_of(name.bytes()), Entry::Number(_))
}

pub fn is_held(name: &Name) -> bool
    ensures { result ≡ named.is_held (kind_of name.now) }
{
    matches!(entry_of(name.bytes()), Entry::Held(_, _))
}

pub fn is_held_of(run: u128, name: &Name) -> bool
    ensures { result ≡ named.is_held_of run (kind_of name.now) }
{
    match entry_of(name.bytes()) {
        Entry::Held(owner, _) => owner == run,
        _ => false,
    }
}

pub fn is_other(name: &Name) -> bool
    ensures { result ≡ named.is_other (kind_of name.now) }
{
    matches!(entry_of(name.bytes()), Entry::Other)
}

fn is_hold_of(run: u128, number: u32, held: &Name) -> bool
    ensures { result ≡ named.is_hold_of run number (kind_of held.now) }
{
    match entry_of(held.bytes()) {
        Entry::Held(owner, held) => owner == run && held.get() == number,
        _ => false,
    }
}

/// Whether the second is this run's held name of the first, a number.
pub fn is_taking(run: u128, number: &Name, held: &Name) -> bool
    ensures { result ≡ named.is_taking run (kind_of number.now) (kind_of held.now) }
{
    match entry_of(number.bytes()) {
        Entry::Number(number) => is_hold_of(run, number.get(), held),
        _ => false,
    }
}

fn is_backup_of(number: u32, backup: &Name) -> bool
    ensures { result ≡ named.is_backup_of number (kind_of backup.now) }
{
    match entry_of(backup.bytes()) {
        Entry::Backup(backup) => backup.get() == number,
        _ => false,
    }
}

/// Whether the second is the backup name of the first, a number.
pub fn is_backing_up(number: &Name, backup: &Name) -> bool
    ensures { result ≡ named.is_backing_up (kind_of number.now) (kind_of backup.now) }
{
    match entry_of(number.bytes()) {
        Entry::Number(number) => is_backup_of(number.get(), backup),
        _ => false,
    }
}

/// Whether commits write the file of this name anew.
pub fn is_committed(place: &Place, name: &Name) -> bool
    ensures { result ≡ named.is_committed place.now name.now }
{
    match place {
        Place::Mail(_) => name.bytes() == b"context".as_slice(),
        Place::Folder(_, _) => matches!(entry_of(name.bytes()), Entry::Sequences),
        Place::Home | Place::Work => false,
    }
}

pub fn is_folder_place(place: &Place) -> bool
    ensures { result ≡ is_folder place.now }
{
    matches!(place, Place::Folder(_, _))
}

pub fn is_work(place: &Place) -> bool
    ensures { result ≡ named.is_work place.now }
{
    matches!(place, Place::Work)
}

/// Whether the second is a comma, the first, and `.orig`.
pub fn is_original(name: &Name, old: &Name) -> bool
    ensures { IsTrue result ↔ (old.now ≡ named.original_of name.now) }
{
    match old.bytes().split_first() {
        Some((b',', rest)) => match before(rest, b".orig") {
            Some(stem) => stem == name.bytes(),
            None => false,
        },
        _ => false,
    }
}
