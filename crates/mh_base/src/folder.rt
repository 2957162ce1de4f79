// Names of folders.
ghost use Rattle.std.specs.Prelude.{◌≡◌, ◌≤◌, ◌↔◌, false, length, IsTrue, IsErrOf, IfOk};
ghost use Rattle.std.specs.List.{list_all};
ghost use Rattle.mh_base.specs.Folders.{
  is_segment,
  segments,
  is_folder_byte,
  is_no_context,
  has_good_ends,
  is_folder_text,
  is_folder_name,
  without_plus,
};
ghost use Rattle.std.specs.Str.{chars};

use crate::{Duplicate, Entry, Text, entry_of};
use std::alloc::{AllocError, Global};
use std::marker::Model;
use thiserror::Error;

/// A folder's name, relative to the mail directory: segments joined by slashes.
#[derive(Drop)]
pub struct FolderName {
    text: Text,
}

/// Why a word is no folder's name.
#[derive(Debug, PartialEq, Eq, Drop, Error)]
pub enum FolderFault {
    #[error("no folder name")]
    BadFolder,
    #[error("out of memory")]
    Memory,
}

impl Model for FolderName {
    ghost use Rattle.std.specs.Prelude.{List, ℕ};
    ghost use Rattle.std.specs.Prelude.{IsTrue};
    ghost use Rattle.mh_base.specs.Folders.{is_folder_name};

    ghost Value = { List ℕ };

    ghost view = { λ n. n.text };

    ghost invariant = { λ n. IsTrue (is_folder_name n.text) };
}

fn is_segment_name(segment: &[u8]) -> bool
    ensures { result ≡ is_segment segment.now }
{
    if segment.is_empty() || segment == b".".as_slice() || segment == b"..".as_slice() {
        return false;
    }
    match entry_of(segment) {
        Entry::Number(_) | Entry::Other => true,
        _ => false,
    }
}

fn are_segments(bytes: &[u8]) -> bool
    ensures { result ≡ list_all is_segment (segments bytes.now) }
{
    bytes
        .split(|byte| *byte == b'/')
        .all(|segment| is_segment_name(segment))
}

/// The context stands in the mail directory beside the folders.
fn is_no_context_name(bytes: &[u8]) -> bool
    ensures { result ≡ is_no_context bytes.now }
{
    bytes != b"context".as_slice() && bytes.strip_prefix(b"context/").is_none()
}

fn has_folder_bytes(bytes: &[u8]) -> bool
    ensures { result ≡ list_all is_folder_byte bytes.now }
{
    bytes.iter().all(|byte| 32 <= *byte && *byte != 127)
}

fn has_ends(bytes: &[u8]) -> bool
    requires { 1 ≤ length bytes.now }
    ensures { result ≡ has_good_ends bytes.now }
{
    let first = bytes[0];
    let last = bytes[bytes.len() - 1];
    first != b'+' && first != b' ' && last != b' '
}

fn is_folder(bytes: &[u8]) -> bool
    ensures { result ≡ is_folder_text bytes.now }
{
    if bytes.is_empty() || bytes.len() > 200 {
        return false;
    }
    has_ends(bytes) && has_folder_bytes(bytes) && is_no_context_name(bytes) && are_segments(bytes)
}

/// The word without the plus sign that marks a folder on the command line.
fn unmarked(word: &str) -> &str
    ensures { chars result.now ≡ without_plus (chars word.now) }
{
    match word.strip_prefix('+') {
        Some(rest) => rest,
        None => word,
    }
}

impl FolderName {
    /// Reads a word, with or without a leading plus sign.
    pub fn read(alloc: Global, word: &Text) -> Result<FolderName, FolderFault>
        ensures value { IfOk result (λ n. (n ≡ without_plus word.now) × IsTrue (is_folder_name n)) }
        ensures refused { IsErrOf result FolderFault.BadFolder → is_folder_name (without_plus word.now) ≡ false }
    {
        let name = unmarked(word.as_str());
        if !is_folder(name.as_bytes()) {
            return Err(FolderFault::BadFolder);
        }
        match Text::from_str(alloc, name) {
            Ok(text) => Ok(FolderName { text }),
            Err(_) => Err(FolderFault::Memory),
        }
    }

    /// The name without a plus sign.
    pub fn text(&self) -> &Text
        ensures value { result.now ≡ self.now }
        ensures valid { IsTrue (is_folder_name result.now) }
    {
        &self.text
    }

    pub fn same(&self, other: &FolderName) -> bool
        ensures { IsTrue result ↔ (self.now ≡ other.now) }
    {
        self.text.same(&other.text)
    }
}

impl Duplicate for FolderName {
    fn duplicate(&self, alloc: Global) -> Result<FolderName, AllocError> {
        Ok(FolderName {
            text: self.text.duplicate(alloc)?,
        })
    }
}
