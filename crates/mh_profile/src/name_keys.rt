// Names of entries, looked up by their keys.
ghost use Rattle.std.specs.Prelude.{◌≡◌, ℕ, List, map, IfOk};
ghost use Rattle.mh_profile.specs.NameKeys.{has_key, is_named};
ghost use Rattle.mh_profile.specs.Names.{key_of};

use crate::key::name_key;
use indexmap::IndexSet;
use std::alloc::{AllocError, Global};

/// The keys of some names.
#[derive(Drop)]
pub(crate) struct NameKeys {
    keys: IndexSet<Vec<u8>>,
}

impl NameKeys {
    /// The keys of these names.
    pub(crate) fn of(alloc: Global, names: &[&[u8]]) -> Result<NameKeys, AllocError>
        ensures { IfOk result
            (λ k. (name : List ℕ) → has_key k (key_of name) ≡ is_named (map (λ n. n.now) names.now) name) }
    {
        let mut keys = IndexSet::new(alloc);
        for name in names {
            keys.insert(name_key(alloc, name)?)?;
        }
        Ok(NameKeys { keys })
    }

    pub(crate) fn has(&self, key: &[u8]) -> bool
        ensures { result ≡ has_key self.now key.now }
    {
        self.keys.contains(key)
    }
}
