// Names of directory entries.
ghost use Rattle.std.specs.Prelude.{◌≡◌, ◌↔◌, MatchOption, IfOk, IsTrue};
ghost use Rattle.mh_base.specs.Names.{IsName, is_name_byte};
ghost use Rattle.std.specs.List.{list_all};

use crate::{Bytes, Duplicate, List};
use std::alloc::{AllocError, Global};
use std::marker::Model;

/// The name of a directory entry: 1 to 255 bytes without a slash and a zero byte.
#[derive(Drop)]
pub struct Name {
    bytes: Bytes,
}

pub type NameList = List<Name>;

impl Model for Name {
    ghost use Rattle.std.specs.Prelude.{List, ℕ};
    ghost use Rattle.mh_base.specs.Names.{IsName};

    ghost Value = { List ℕ };

    ghost view = { λ n. n.bytes };

    ghost invariant = { λ n. IsName n.bytes };
}

fn is_clean(bytes: &[u8]) -> bool
    ensures { result ≡ list_all is_name_byte bytes.now }
{
    bytes.iter().all(|byte| *byte != 0 && *byte != b'/')
}

fn is_name(bytes: &[u8]) -> bool
    ensures { IsTrue result ↔ IsName bytes.now }
{
    if bytes.is_empty() || bytes.len() > 255 {
        return false;
    }
    is_clean(bytes)
}

impl Name {
    pub fn new(bytes: Bytes) -> Option<Name>
        ensures { MatchOption result (¬ (IsName bytes)) (λ n. IsName bytes × (n ≡ bytes)) }
    {
        if is_name(bytes.as_slice()) {
            Some(Name { bytes })
        } else {
            None
        }
    }

    pub fn bytes(&self) -> &[u8]
        ensures value { result.now ≡ self.now }
        ensures valid { IsName result.now }
    {
        self.bytes.as_slice()
    }

    pub fn same(&self, other: &Name) -> bool
        ensures { IsTrue result ↔ (self.now ≡ other.now) }
    {
        self.bytes.same(&other.bytes)
    }
}

impl Duplicate for Name {
    fn duplicate(&self, alloc: Global) -> Result<Name, AllocError> {
        Ok(Name {
            bytes: self.bytes.duplicate(alloc)?,
        })
    }
}
