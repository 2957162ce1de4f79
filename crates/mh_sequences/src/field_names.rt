// The names of a text's fields.
ghost use Rattle.std.specs.Prelude.{◌≡◌, List, ℕ, IfOk};
ghost use Rattle.mail_headers.specs.Fields.{fields_of};
ghost use Rattle.mh_sequences.specs.FieldNames.{is_name_in};
ghost use Rattle.mh_sequences.specs.Reading.{has_field};

use mail_headers::Message;
use std::alloc::{AllocError, Global};
use std::collections::BTreeSet;

/// The names of a text's fields, which are looked up byte for byte.
#[derive(Drop)]
pub(crate) struct FieldNames {
    names: BTreeSet<Vec<u8>>,
}

impl FieldNames {
    pub(crate) fn of(alloc: Global, text: &[u8]) -> Result<FieldNames, AllocError>
        ensures { IfOk result (λ f. (name : List ℕ) → is_name_in f name ≡ has_field (fields_of text.now) name) }
    {
        let mut names = BTreeSet::new(alloc);
        for field in Message::cut(text).fields() {
            names.insert(field.name.to_vec(alloc)?)?;
        }
        Ok(FieldNames { names })
    }

    pub(crate) fn has(&self, name: &[u8]) -> bool
        ensures { result ≡ is_name_in self.now name.now }
    {
        self.names.contains(name)
    }
}
