// All entries of a profile or a context.
ghost use Rattle.std.specs.Prelude.{◌≡◌, ◌≤◌, bytes_eq, not, [], ◌++◌, ◌∷◌, length, map, IfOk, OnOk, OnErr, MatchOption, None, Some, slice_get};
ghost use Rattle.indexmap.specs.IndexMap.{get_by};
ghost use Rattle.mh_profile.specs.Changes.{value_of, with_entry, without, without_all, noted};
ghost use Rattle.mh_profile.specs.NameKeys.{has_key};
ghost use Rattle.mh_profile.specs.Names.{IsFieldName};
ghost use Rattle.mh_profile.specs.Values.{IsUnfolded};
ghost use Rattle.mh_profile.specs.Printing.{printed};
ghost use Rattle.mh_profile.specs.Reading.{entries_in};
ghost use Rattle.mh_profile.specs.Validity.{AreEntries, IsEntry};

use crate::NamedValue;
use crate::key::name_key;
use crate::lines::read_entry;
use crate::name_keys::NameKeys;
use crate::printing::put_entry;
use indexmap::IndexMap;
use mail_headers::folded_line_len;
use mh_base::Bytes;
use std::alloc::{AllocError, Global};
use std::marker::Model;

type EntryMap = IndexMap<Vec<u8>, NamedValue>;

/// The entries of a profile or a context, in order. Contracts see the list of their names and values.
///
/// Inside, each stands under the key of its name.
#[derive(Drop)]
pub struct Entries {
    alloc: Global,
    map: EntryMap,
}

impl Model for Entries {
    ghost use Rattle.std.specs.Prelude.{List};
    ghost use Rattle.mh_profile.specs.declared.named_value.NamedValue.{NamedValue};
    ghost use Rattle.indexmap.specs.IndexMap.{values};
    ghost use Rattle.mh_profile.specs.Keys.{AreKeyed};
    ghost use Rattle.mh_profile.specs.Validity.{AreEntries};

    ghost Value = { List NamedValue };

    ghost view = { λ e. values e.map };

    ghost invariant = { λ e. AreKeyed e.map.entries × AreEntries (values e.map) };
}

/// Puts an entry last, under a key that is not there.
fn add(map: &mut EntryMap, key: Vec<u8>, entry: NamedValue) -> Result<(), AllocError>
    requires { get_by (λ k. bytes_eq key.items k.items) map.old ≡ None }
    ensures ok { OnOk result (map.new.entries ≡ map.old.entries ++ (key, entry) ∷ []) }
    ensures err { OnErr result (map.new.entries ≡ map.old.entries) }
{
    map.insert(key, entry)?;
    Ok(())
}

impl Entries {
    /// No entries.
    pub fn new(alloc: Global) -> Entries
        ensures { result ≡ [] }
    {
        Entries {
            alloc,
            map: IndexMap::new(alloc),
        }
    }

    /// Puts an entry last, unless there is one of its name.
    fn note(&mut self, entry: NamedValue) -> Result<(), AllocError>
        requires { IsEntry entry }
        ensures { OnOk result (self.new ≡ noted self.old entry) }
    {
        let key = name_key(self.alloc, entry.name.as_slice())?;
        if self.map.contains_key(key.as_slice()) {
            return Ok(());
        }
        add(&mut self.map, key, entry)?;
        Ok(())
    }

    /// The entries of a profile's text. Lines that are no field are passed over.
    pub fn read(alloc: Global, bytes: &[u8]) -> Result<Entries, AllocError>
        ensures { IfOk result (λ entries. entries ≡ entries_in bytes.now) }
    {
        let mut entries = Entries::new(alloc);
        let mut rest = bytes;
        while !rest.is_empty() {
            let (line, behind) = rest.split_at(folded_line_len(rest));
            if let Some(entry) = read_entry(alloc, line)? {
                entries.note(entry)?;
            }
            rest = behind;
        }
        Ok(entries)
    }

    /// The value of the entry of this name, where there is one.
    pub fn get(&self, name: &[u8]) -> Result<Option<&Bytes>, AllocError>
        ensures { IfOk result
            (λ found.
            MatchOption found (value_of name.now self.now ≡ None) (λ v. value_of name.now self.now ≡ Some v.now)) }
    {
        let key = name_key(self.alloc, name)?;
        match self.map.get(key.as_slice()) {
            Some(entry) => Ok(Some(&entry.value)),
            None => Ok(None),
        }
    }

    /// Gives the entry of this name the value, in its place and its spelling. A new one goes last.
    pub fn set(&mut self, name: Bytes, value: Bytes) -> Result<(), AllocError>
        requires name { IsFieldName name }
        requires value { IsUnfolded value }
        ensures ok { OnOk result (self.new ≡ with_entry name value self.old) }
        ensures err { OnErr result (self.new ≡ self.old) }
    {
        let key = name_key(self.alloc, name.as_slice())?;
        match self.map.get_index_of(key.as_slice()) {
            Some(index) => {
                self.map[index].value = value;
                Ok(())
            }
            None => {
                add(&mut self.map, key, NamedValue { name, value })?;
                Ok(())
            }
        }
    }

    /// Takes the entry of this name away, where there is one. It moves all entries behind it: to take many,
    /// `remove_all`.
    pub fn remove(&mut self, name: &[u8]) -> Result<(), AllocError>
        ensures ok { OnOk result (self.new ≡ without name.now self.old) }
        ensures err { OnErr result (self.new ≡ self.old) }
    {
        let key = name_key(self.alloc, name)?;
        let _ = self.map.shift_remove(key.as_slice());
        Ok(())
    }

    /// Takes the entries of all these names away, in one pass over the entries.
    pub fn remove_all(&mut self, names: &[&[u8]]) -> Result<(), AllocError>
        ensures ok { OnOk result (self.new ≡ without_all (map (λ n. n.now) names.now) self.old) }
        ensures err { OnErr result (self.new ≡ self.old) }
    {
        let gone = NameKeys::of(self.alloc, names)?;
        self.map.retain(
            |key: &Vec<u8>, entry: &mut NamedValue| -> bool
                ensures { (result ≡ not (has_key gone key.now.items)) × (entry.new ≡ entry.old) }
            { !gone.has(key.as_slice()) },
        );
        Ok(())
    }

    /// How many entries there are.
    pub fn len(&self) -> u64
        ensures value { result ≡ length self.now }
        ensures valid { AreEntries self.now }
    {
        self.map.len() as u64
    }

    /// The name of the entry at this place, from 0.
    pub fn name_at(&self, index: u64) -> Option<&Bytes>
        ensures { MatchOption result (length self.now ≤ index)
            (λ n. slice_get (map (λ e. e.name) self.now) index ≡ Some n.now) }
    {
        match self.map.get_index(index as usize) {
            Some((_key, entry)) => Some(&entry.name),
            None => None,
        }
    }

    /// The entries as a text, a line each, which reads back as these entries.
    pub fn print(&self, alloc: Global) -> Result<Bytes, AllocError>
        ensures text { IfOk result (λ text. text ≡ printed self.now) }
        ensures reads_back { IfOk result (λ text. entries_in text ≡ self.now) }
    {
        let mut text = Bytes::new(alloc);
        for entry in self.map.values() {
            put_entry(&mut text, entry)?;
        }
        Ok(text)
    }
}
