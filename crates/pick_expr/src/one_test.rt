// Tests of a message.

use crate::Pattern;
use mh_base::Bytes;

/// A test of a message.
#[derive(Drop)]
pub enum Test {
    /// Some field of this name has a value that the pattern matches.
    Field { name: Bytes, pattern: Pattern },
    /// The pattern matches some line.
    Search(Pattern),
    /// The date in the first field of this name is before the clock, in seconds from 1970 on.
    Before { field: Bytes, clock: i64 },
    /// It is after the clock.
    After { field: Bytes, clock: i64 },
}
