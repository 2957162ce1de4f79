// A message that is held aside.
ghost use Rattle.std.specs.Prelude.{◌≡◌, IfOk};
ghost use Rattle.held_messages.specs.HeldPairs.{held_name as held_name_text};

use mh_base::{Entry, MsgNum, Name, entry_name};
use std::alloc::{AllocError, Global};

/// Which run holds a message aside, and the number that the message had.
#[derive(Clone, Copy, Debug, PartialEq, Eq)]
pub struct HeldPair {
    pub run: u128,
    pub number: MsgNum,
}

/// The name of the message while it is held aside.
pub(crate) fn held_name(alloc: Global, pair: &HeldPair) -> Result<Name, AllocError>
    ensures { IfOk result (λ name. name ≡ held_name_text pair.now) }
{
    entry_name(alloc, &Entry::Held(pair.run, pair.number))
}
