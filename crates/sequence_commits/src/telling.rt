// What a folder's text and the context are to say.
ghost use Rattle.std.specs.Prelude.{◌≡◌, ◌&&◌, bytes_eq, IfOk};
ghost use Rattle.std.specs.List.{All};
ghost use Rattle.mh_profile.specs.Validity.{IsEntry};
ghost use Rattle.mh_sequences.specs.Printing.{private_entries, text_of};
ghost use Rattle.mh_sequences.specs.Reading.{suffix};
ghost use Rattle.sequence_commits.specs.Telling.{same_entries as same_entries_value};

use mh_base::{Bytes, FolderName};
use mh_profile::{EntryList, NamedValue};
use mh_sequences::Sequences;
use std::alloc::{AllocError, Global};

/// The text of a folder's public sequences and the context's entries of its private ones.
#[derive(Drop)]
pub(crate) struct Told {
    pub(crate) text: Bytes,
    pub(crate) entries: EntryList,
}

impl Told {
    pub(crate) fn of(
        alloc: Global,
        sequences: &Sequences,
        folder: &FolderName,
    ) -> Result<Told, AllocError>
        ensures text { IfOk result (λ told. told.text ≡ text_of sequences.now) }
        ensures entries { IfOk result (λ told. told.entries ≡ private_entries (suffix folder.now) sequences.now.users) }
        ensures valid { IfOk result (λ told. All IsEntry told.entries) }
    {
        let text = sequences.print(alloc)?;
        let entries = sequences.context_entries(alloc, folder)?;
        Ok(Told { text, entries })
    }

    pub(crate) fn same(&self, other: &Told) -> bool
        ensures { result
            ≡ (bytes_eq self.now.text other.now.text && same_entries_value self.now.entries other.now.entries) }
    {
        self.text.as_slice() == other.text.as_slice()
            && same_entries(self.entries.as_slice(), other.entries.as_slice())
    }
}

fn same_entry(one: &NamedValue, other: &NamedValue) -> bool
    ensures { result ≡ (bytes_eq one.now.name other.now.name && bytes_eq one.now.value other.now.value) }
{
    one.name.as_slice() == other.name.as_slice() && one.value.as_slice() == other.value.as_slice()
}

fn same_entries(some: &[NamedValue], others: &[NamedValue]) -> bool
    ensures { result ≡ same_entries_value some.now others.now }
{
    if some.len() != others.len() {
        return false;
    }
    for (index, one) in some.iter().enumerate() {
        if !same_entry(one, &others[index]) {
            return false;
        }
    }
    true
}
