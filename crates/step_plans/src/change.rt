// Changes of the context.
ghost use Rattle.std.specs.Prelude.{◌≡◌, ◌≤◌, drop, length, map, IfOk, OnOk, Some};
ghost use Rattle.mh_profile.specs.Changes.{value_of};
ghost use Rattle.step_plans.specs.ContextCommit.{IsChangeBy, AreChanges, AreGoneFirst, changed_by, changed, same_value, says as says_value, settled as settled_value};

use crate::keeping::Kept;
use mh_base::{Bytes, Duplicate, List};
use mh_profile::Entries;
use std::alloc::{AllocError, Global};

/// One change of the context: the entry of this name has this value, or is gone.
#[derive(Drop)]
pub struct ChangeEntry {
    pub name: Bytes,
    pub value: Option<Bytes>,
}

pub type ChangeEntryList = List<ChangeEntry>;

fn change_one(alloc: Global, entries: &mut Entries, change: &ChangeEntry) -> Result<(), AllocError>
    requires { IsChangeBy change.now.name change.now.value }
    ensures { OnOk result (entries.new ≡ changed_by change.now.name change.now.value entries.old) }
{
    match &change.value {
        None => entries.remove(change.name.as_slice()),
        Some(value) => entries.set(change.name.duplicate(alloc)?, value.duplicate(alloc)?),
    }
}

/// The names of the entries that the first changes take away, up to one that gives a value.
fn gone_first<'a>(alloc: Global, changes: &'a [ChangeEntry]) -> Result<Vec<&'a [u8]>, AllocError>
    ensures { IfOk result (λ names. AreGoneFirst (map (λ n. n.now) names.items) changes.now) }
{
    let mut names = Vec::new(alloc);
    for change in changes {
        if change.value.is_some() {
            return Ok(names);
        }
        names.push(change.name.as_slice())?;
    }
    Ok(names)
}

/// Makes the first change, or all at the front that take an entry away. How many those were.
fn change_some(
    alloc: Global,
    entries: &mut Entries,
    changes: &[ChangeEntry],
) -> Result<usize, AllocError>
    requires changes { AreChanges changes.now }
    requires some { 1 ≤ length changes.now }
    ensures changed { IfOk result (λ n. changed changes.now entries.old ≡ changed (drop n changes.now) entries.new) }
    ensures some { IfOk result (λ n. (1 ≤ n) × (n ≤ length changes.now)) }
{
    let names = gone_first(alloc, changes)?;
    if names.is_empty() {
        change_one(alloc, entries, &changes[0])?;
        return Ok(1);
    }
    entries.remove_all(&names)?;
    Ok(names.len())
}

/// Makes these changes, one after another. Those behind each other that take entries away cost one
/// pass over the entries, and each that gives a value costs that value.
pub(crate) fn change_all(
    alloc: Global,
    entries: &mut Entries,
    changes: &[ChangeEntry],
) -> Result<(), AllocError>
    requires { AreChanges changes.now }
    ensures { OnOk result (entries.new ≡ changed changes.now entries.old) }
{
    let mut done = 0;
    while done < changes.len() {
        let (_, left) = changes.split_at(done);
        done += change_some(alloc, entries, left)?;
    }
    Ok(())
}

fn is_value(found: &Bytes, value: &Option<Bytes>) -> bool
    ensures { result ≡ same_value (Some found.now) value.now }
{
    match value {
        None => false,
        Some(value) => found.as_slice() == value.as_slice(),
    }
}

/// Whether this change is what the entries say already.
fn says_one(entries: &Entries, change: &ChangeEntry) -> Result<bool, AllocError>
    ensures { IfOk result (λ said. said ≡ same_value (value_of change.now.name entries.now) change.now.value) }
{
    match entries.get(change.name.as_slice())? {
        None => Ok(change.value.is_none()),
        Some(found) => Ok(is_value(found, &change.value)),
    }
}

/// Whether each change is what the entries say already.
fn says(entries: &Entries, changes: &[ChangeEntry]) -> Result<bool, AllocError>
    ensures { IfOk result (λ said. said ≡ says_value entries.now changes.now) }
{
    for change in changes {
        let said = says_one(entries, change)?;
        if !said {
            return Ok(false);
        }
    }
    Ok(true)
}

/// Whether the entries that this run last read or wrote say so already; it may have seen none.
pub(crate) fn is_settled(changes: &[ChangeEntry], kept: &Kept) -> Result<bool, AllocError>
    ensures { IfOk result (λ settled. settled ≡ settled_value changes.now kept.now.context) }
{
    match kept.context() {
        None => Ok(false),
        Some(entries) => says(entries, changes),
    }
}
