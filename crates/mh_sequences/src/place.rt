// Where a sequence stands among others.
ghost use Rattle.std.specs.Prelude.{◌≡◌, ◌≤◌, length, map};
ghost use Rattle.std.specs.List.{prefix_len};
ghost use Rattle.mh_sequences.specs.Placing.{IsPlace, stands_before};
ghost use Rattle.mh_sequences.specs.Sequences.{told, AreSequences};

use crate::user::User;
use std::cmp::Ordering;

/// Where the sequence of a name stands, or before which it is to stand.
#[derive(Clone, Copy)]
pub(crate) enum Position {
    At(usize),
    Before(usize),
}

/// How many sequences stand before the name.
fn passed(users: &[User], name: &[u8]) -> usize
    requires { AreSequences (map told users.now) }
    ensures value { result ≡ prefix_len (stands_before name.now) (map told users.now) }
    ensures within { result ≤ length users.now }
{
    users.partition_point(|user| user.name.bytes().cmp(&name) == Ordering::Less)
}

/// The place of a name among sequences in byte order of their names.
pub(crate) fn place_of(users: &[User], name: &[u8]) -> Position
    requires { AreSequences (map told users.now) }
    ensures { IsPlace name.now (map told users.now) result }
{
    let at = passed(users, name);
    if let Some(user) = users.get(at) {
        if user.name.bytes() == name {
            return Position::At(at);
        }
    }
    Position::Before(at)
}
