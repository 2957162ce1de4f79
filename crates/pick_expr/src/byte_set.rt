// Sets of bytes.
ghost use Rattle.std.specs.Prelude.{◌≡◌, ℕ, ◌==◌, ◌||◌, filter};
ghost use Rattle.std.specs.List.{list_any};
ghost use Rattle.pick_expr.specs.Atoms.{in_member, in_members};
ghost use Rattle.pick_expr.specs.Places.{every_byte, in_halves};

use crate::Member;
use crate::halves::Halves;
use std::marker::Model;

/// A set of bytes, which contracts see as the list of its members, ascending.
#[derive(Drop)]
pub struct ByteSet {
    inner: Halves,
}

impl Model for ByteSet {
    ghost use Rattle.std.specs.Prelude.{ℕ, List, filter};
    ghost use Rattle.pick_expr.specs.Places.{every_byte, in_halves};

    ghost Value = { List ℕ };

    ghost view = { λ s. filter (in_halves s.inner) every_byte };
}

/// With a member of a class.
fn with_member(halves: Halves, member: Member) -> Halves
    ensures { (b : ℕ) → in_halves result b ≡ (in_member member b || in_halves halves b) }
{
    match member {
        Member::Single(byte) => halves.with_folded(byte),
        Member::Range(low, high) => halves.with_range(low, high),
    }
}

fn with_all(members: &[Member]) -> Halves
    ensures { (b : ℕ) → in_halves result b ≡ in_members members.now b }
{
    let mut halves = Halves::none();
    for member in members {
        halves = with_member(halves, *member);
    }
    halves
}

impl ByteSet {
    /// The bytes of a class's members.
    pub(crate) fn of(members: &[Member]) -> ByteSet
        ensures { result ≡ filter (in_members members.now) every_byte }
    {
        ByteSet {
            inner: with_all(members),
        }
    }

    pub(crate) fn has(&self, byte: u8) -> bool
        ensures { result ≡ list_any (λ b. b == byte) self.now }
    {
        self.inner.has(byte)
    }
}
