// Names of drafts.
ghost use Rattle.std.specs.Prelude.{◌≡◌, MatchOption, IfOk, IsTrue, false};
ghost use Rattle.std.specs.List.{list_all};
ghost use Rattle.mh_base.specs.Entries.{kind_of};
ghost use Rattle.mh_base.specs.Names.{is_name_byte};
ghost use Rattle.folder_files.specs.Named.{is_other as is_other_kind, original_of};
ghost use Rattle.draft_files.specs.DraftNames.{is_draft_name};

use mh_base::{Bytes, Duplicate, Entry, Name, entry_of};
use std::alloc::{AllocError, Global};
use std::marker::Model;

/// The name of a draft in the current directory: one to which the program gives no meaning, at most 249 bytes long.
#[derive(Drop)]
pub struct DraftName {
    name: Name,
}

impl Model for DraftName {
    ghost use Rattle.std.specs.Prelude.{List, ℕ, IsTrue};
    ghost use Rattle.draft_files.specs.DraftNames.{is_draft_name};

    ghost Value = { List ℕ };

    ghost view = { λ n. n.name };

    ghost invariant = { λ n. IsTrue (is_draft_name n.name) };
}

fn is_clean(bytes: &[u8]) -> bool
    ensures { result ≡ list_all is_name_byte bytes.now }
{
    bytes.iter().all(|byte| *byte != 0 && *byte != b'/')
}

fn is_other(bytes: &[u8]) -> bool
    ensures { result ≡ is_other_kind (kind_of bytes.now) }
{
    match entry_of(bytes) {
        Entry::Other => true,
        _ => false,
    }
}

#[tactic(auto, unfolding(crate::specs::DraftNames::is_draft_name))]
fn is_draft(bytes: &[u8]) -> bool
    ensures { result ≡ is_draft_name bytes.now }
{
    if bytes.is_empty() || bytes.len() > 249 {
        return false;
    }
    is_clean(bytes) && is_other(bytes)
}

impl DraftName {
    pub fn new(bytes: Bytes) -> Option<DraftName>
        ensures { MatchOption result (is_draft_name bytes ≡ false) (λ n. IsTrue (is_draft_name bytes) × (n ≡ bytes)) }
    {
        if is_draft(bytes.as_slice()) {
            Some(DraftName {
                name: Name::new(bytes).unwrap(),
            })
        } else {
            None
        }
    }

    pub fn name(&self) -> &Name
        ensures value { result.now ≡ self.now }
        ensures valid { IsTrue (is_draft_name result.now) }
    {
        &self.name
    }

    /// The name under which the draft stays once its message has its name: a comma, the name and `.orig`.
    pub fn original(&self, alloc: Global) -> Result<Name, AllocError>
        ensures { IfOk result (λ n. n ≡ original_of self.now) }
    {
        let mut text = Bytes::from_slice(alloc, b",")?;
        text.extend(self.name.bytes())?;
        text.extend(b".orig")?;
        Ok(Name::new(text).unwrap())
    }
}

impl Duplicate for DraftName {
    fn duplicate(&self, alloc: Global) -> Result<DraftName, AllocError> {
        Ok(DraftName {
            name: self.name.duplicate(alloc)?,
        })
    }
}
