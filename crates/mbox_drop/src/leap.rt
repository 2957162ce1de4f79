// The rest of a line.
ghost use Rattle.std.specs.Prelude.{◌≡◌, ◌≤◌, ◌⊎◌, IsTrue, length, slice_index};
ghost use Rattle.mbox_drop.specs.Places.{is_middle};
ghost use Rattle.mbox_drop.specs.Leaping.{IsLeap};

use crate::place::DropState;
use memchr::memchr;

/// The next byte that changes the place: in the middle of a line its LF, if there is one.
#[inline(always)]
pub fn leap(place: DropState, bytes: &[u8], from: usize) -> usize
    requires { from ≤ length bytes.now }
    ensures plain { IsLeap place bytes.now from result }
    ensures far { IsTrue (is_middle place) → (result ≡ length bytes.now) ⊎ (slice_index bytes.now result ≡ 10) }
{
    if !place.is_middle() {
        return from;
    }
    match memchr(b'\n', &bytes[from..]) {
        Some(count) => from + count,
        None => bytes.len(),
    }
}
