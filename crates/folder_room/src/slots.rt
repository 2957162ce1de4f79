// Where the names of a directory lead.
ghost use Rattle.std.specs.Prelude.{◌≡◌, reverse};
ghost use Rattle.folder_files.specs.Directory.{Slots, lead, after_change};
ghost use Rattle.folder_room.specs.Ways.{by_way};
ghost use Rattle.folder_files.specs.Worlds.{slot_of};

use folder_files::{Change, Slot};
use mh_base::Name;

/// The file of a safe slot.
pub fn slot(slots: &[Slot], name: &Name) -> Option<u64>
    ensures { result ≡ slot_of slots.now name.now }
{
    match slots.split_first() {
        None => None,
        Some((first, rest)) => {
            if first.name.same(name) {
                Some(first.file)
            } else {
                slot(rest, name)
            }
        }
    }
}

/// Where a change leads a name: to a file, nowhere, or where a name led before it.
#[derive(Drop, Clone, Copy)]
pub enum Way<'a> {
    File(u64),
    Nowhere,
    As(&'a Name),
}

fn leads_by<'a>(change: &'a Change, name: &'a Name) -> Way<'a>
    ensures { (s : Slots) → after_change change.now s name.now ≡ by_way s result }
{
    match change {
        Change::Set(to, file) if to.same(name) => Way::File(*file),
        Change::Gone(gone) if gone.same(name) => Way::Nowhere,
        Change::Moved(from, to) if to.same(name) => Way::As(from),
        Change::Moved(from, _) if from.same(name) => Way::Nowhere,
        _ => Way::As(name),
    }
}

/// The file to which a name leads after these changes, the oldest first.
pub fn led(slots: &[Slot], pending: &[Change], name: &Name) -> Option<u64>
    ensures { result ≡ lead (slot_of slots.now) (reverse pending.now) name.now }
{
    match pending.split_last() {
        None => slot(slots, name),
        Some((change, older)) => match leads_by(change, name) {
            Way::File(file) => Some(file),
            Way::Nowhere => None,
            Way::As(before) => led(slots, older, before),
        },
    }
}
