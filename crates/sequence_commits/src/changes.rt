// Changes of the context that write a folder's private sequences.
ghost use Rattle.std.specs.Prelude.{◌≡◌, ◌++◌, ◌∷◌, ◌<◌, [], List, ℕ, length, filter, map, slice_get, Some, IfOk, OnOk};
ghost use Rattle.std.specs.List.{All};
ghost use Rattle.mh_profile.specs.Validity.{IsEntry};
ghost use Rattle.mh_sequences.specs.Reading.{suffix};
ghost use Rattle.step_plans.specs.ContextCommit.{AreChanges};
ghost use Rattle.sequence_commits.specs.FolderEntries.{set_all};
ghost use Rattle.sequence_commits.specs.PrivateChanges.{changes_to, entry_names, given, gone, is_left_over};
ghost use Rattle.mh_profile.specs.Reading.{entries_seen};

use crate::ending::{ending_of, is_of_folder};
use mh_base::{Bytes, Duplicate, FolderName};
use mh_profile::{Entries, NamedValue};
use std::alloc::{AllocError, Global};
use step_plans::{ChangeEntry, ChangeEntryList, Hand};

/// These entries get their values.
fn put_given(
    alloc: Global,
    changes: &mut ChangeEntryList,
    entries: &[NamedValue],
) -> Result<(), AllocError>
    ensures { OnOk result (changes.new ≡ changes.old ++ map given entries.now) }
{
    for entry in entries {
        changes.push(ChangeEntry {
            name: entry.name.duplicate(alloc)?,
            value: Some(entry.value.duplicate(alloc)?),
        })?;
    }
    Ok(())
}

/// These entries, so that they can be looked up.
fn looked_up(alloc: Global, entries: &[NamedValue]) -> Result<Entries, AllocError>
    requires { All IsEntry entries.now }
    ensures { IfOk result (λ found. found ≡ set_all entries.now []) }
{
    let mut found = Entries::new(alloc);
    for entry in entries {
        found.set(entry.name.duplicate(alloc)?, entry.value.duplicate(alloc)?)?;
    }
    Ok(found)
}

/// Whether this is the name of an entry of the folder that is none of those.
fn is_left(kept: &Entries, name: &[u8], ending: &[u8]) -> Result<bool, AllocError>
    ensures { IfOk result (λ left. left ≡ is_left_over ending.now kept.now name.now) }
{
    if is_of_folder(name, ending) {
        Ok(kept.get(name)?.is_none())
    } else {
        Ok(false)
    }
}

/// The entry of this name goes, where it is left over.
fn put_gone(
    alloc: Global,
    changes: &mut ChangeEntryList,
    kept: &Entries,
    name: &Bytes,
    ending: &[u8],
) -> Result<(), AllocError>
    ensures { OnOk result
        (changes.new ≡ changes.old ++ map gone (filter (is_left_over ending.now kept.now) (name.now ∷ []))) }
{
    if !is_left(kept, name.as_slice(), ending)? {
        return Ok(());
    }
    let name = name.duplicate(alloc)?;
    changes.push(ChangeEntry { name, value: None })
}

/// The same for the entry at a place.
fn put_gone_at(
    alloc: Global,
    changes: &mut ChangeEntryList,
    kept: &Entries,
    seen: &Entries,
    index: u64,
    ending: &[u8],
) -> Result<(), AllocError>
    requires { index < length seen.now }
    ensures { OnOk result
        ((name : List ℕ) × (slice_get (entry_names seen.now) index ≡ Some name)
        × (changes.new ≡ changes.old ++ map gone (filter (is_left_over ending.now kept.now) (name ∷ [])))) }
{
    match seen.name_at(index) {
        Some(name) => put_gone(alloc, changes, kept, name, ending),
        None => Ok(()),
    }
}

/// All entries go that are left over.
fn put_all_gone(
    alloc: Global,
    changes: &mut ChangeEntryList,
    kept: &Entries,
    seen: &Entries,
    ending: &[u8],
) -> Result<(), AllocError>
    ensures { OnOk result
        (changes.new ≡ changes.old ++ map gone (filter (is_left_over ending.now kept.now) (entry_names seen.now))) }
{
    for index in 0..seen.len() {
        put_gone_at(alloc, changes, kept, seen, index, ending)?;
    }
    Ok(())
}

/// Of the folder these entries get their values, and all others go.
fn changes_among(
    alloc: Global,
    kept: &[NamedValue],
    seen: &Entries,
    folder: &FolderName,
) -> Result<ChangeEntryList, AllocError>
    requires { All IsEntry kept.now }
    ensures { IfOk result (λ changes. changes ≡ changes_to (suffix folder.now) kept.now seen.now) }
{
    let ending = ending_of(alloc, folder)?;
    let found = looked_up(alloc, kept)?;
    let mut changes = ChangeEntryList::new(alloc);
    put_given(alloc, &mut changes, kept)?;
    put_all_gone(alloc, &mut changes, &found, seen, ending.as_slice())?;
    Ok(changes)
}

/// The same among the entries that the run last read or wrote.
pub(crate) fn changes_seen(
    alloc: Global,
    kept: &[NamedValue],
    hand: &Hand,
    folder: &FolderName,
) -> Result<ChangeEntryList, AllocError>
    requires { All IsEntry kept.now }
    ensures value { IfOk result
        (λ changes. changes ≡ changes_to (suffix folder.now) kept.now (entries_seen hand.now.kept.context)) }
    ensures valid { IfOk result (λ changes. AreChanges changes) }
{
    match hand.context() {
        Some(seen) => changes_among(alloc, kept, seen, folder),
        None => changes_among(alloc, kept, &Entries::new(alloc), folder),
    }
}
