// What the profile says of all commands.
ghost use Rattle.std.specs.Prelude.{◌≡◌, IfOk, codes};
ghost use Rattle.mh_profile.specs.Changes.{value_of};
ghost use Rattle.command_plans.specs.Profile.{inbox_of, negation_of, path_of};

use mail_text::show_bytes;
use mh_base::{Bytes, Duplicate, Text};
use mh_profile::Entries;
use std::alloc::{AllocError, Global};

/// The path of the mail directory, in the profile or `Mail`.
pub fn path(alloc: Global, profile: &Entries) -> Result<Bytes, AllocError>
    ensures { IfOk result (λ path. path ≡ path_of profile.now) }
{
    match profile.get(b"Path")? {
        Some(value) => value.duplicate(alloc),
        None => Bytes::from_slice(alloc, b"Mail"),
    }
}

/// The prefix of negation; empty where the profile names none.
pub fn negation(alloc: Global, profile: &Entries) -> Result<Bytes, AllocError>
    ensures { IfOk result (λ prefix. prefix ≡ negation_of profile.now) }
{
    match profile.get(b"Sequence-Negation")? {
        Some(value) => value.duplicate(alloc),
        None => Ok(Bytes::new(alloc)),
    }
}

/// The folder of which words and context say nothing: the profile's `Inbox`, else `inbox`.
pub fn inbox(alloc: Global, profile: &Entries) -> Result<Text, AllocError>
    ensures { IfOk result (λ text. text ≡ inbox_of profile.now) }
{
    match profile.get(b"Inbox")? {
        Some(value) => show_bytes(alloc, value.as_slice()),
        None => Text::from_str(alloc, "inbox"),
    }
}
