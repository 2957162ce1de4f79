// The slots of a directory after its changes.
ghost use Rattle.std.specs.Prelude.{◌≡◌, reverse, bytes_eq, Some, None, IfOk, List, ℕ, if◌then◌else◌};
ghost use Rattle.folder_files.specs.Directory.{lead, after_change};
ghost use Rattle.folder_files.specs.Worlds.{slot_of};

use crate::slots::slot;
use folder_files::{Change, Slot};
use mh_base::{Duplicate, Name};
use std::alloc::{AllocError, Global};

/// The slots but those of this name.
fn without(alloc: Global, slots: Vec<Slot>, name: &Name) -> Result<Vec<Slot>, AllocError>
    ensures { IfOk result
        (λ r. (x : List ℕ) → slot_of r.items x ≡ (if bytes_eq name.now x then None else slot_of slots.items x)) }
{
    let mut kept = Vec::new(alloc);
    for slot in slots {
        if !slot.name.same(name) {
            kept.push(slot)?;
        }
    }
    Ok(kept)
}

/// The slots with this name leading to this file.
fn with(alloc: Global, slots: Vec<Slot>, name: &Name, file: u64) -> Result<Vec<Slot>, AllocError>
    ensures { IfOk result
        (λ r. (x : List ℕ) → slot_of r.items x ≡ (if bytes_eq name.now x then Some file else slot_of slots.items x)) }
{
    let name = name.duplicate(alloc)?;
    let mut all = without(alloc, slots, &name)?;
    all.insert(0, Slot { name, file })?;
    Ok(all)
}

/// The slots with what one name leads to under another, and nothing under the first.
fn moved(alloc: Global, slots: Vec<Slot>, from: &Name, to: &Name) -> Result<Vec<Slot>, AllocError>
    ensures { IfOk result
        (λ r. (x : List ℕ)
        → slot_of r.items x
        ≡ (if bytes_eq to.now x then slot_of slots.items from.now
        else (if bytes_eq from.now x then None else slot_of slots.items x))) }
{
    let file = slot(&slots, from);
    let rest = without(alloc, slots, from)?;
    match file {
        Some(file) => with(alloc, rest, to, file),
        None => without(alloc, rest, to),
    }
}

/// The slots after one change.
pub fn changed(alloc: Global, slots: Vec<Slot>, change: &Change) -> Result<Vec<Slot>, AllocError>
    ensures { IfOk result (λ r. (x : List ℕ) → slot_of r.items x ≡ after_change change.now (slot_of slots.items) x) }
{
    match change {
        Change::Set(name, file) => with(alloc, slots, name, *file),
        Change::Gone(name) => without(alloc, slots, name),
        Change::Moved(from, to) => moved(alloc, slots, from, to),
    }
}

/// The slots after these changes, the oldest first.
pub fn settled(alloc: Global, slots: Vec<Slot>, pending: &[Change]) -> Result<Vec<Slot>, AllocError>
    ensures { IfOk result (λ r. (x : List ℕ) → slot_of r.items x ≡ lead (slot_of slots.items) (reverse pending.now) x) }
{
    match pending.split_last() {
        None => Ok(slots),
        Some((change, older)) => {
            let before = settled(alloc, slots, older)?;
            changed(alloc, before, change)
        }
    }
}
