// Atoms with their stars.

use crate::Atom;

/// An atom, once or any number of times.
#[derive(Drop)]
pub enum Element {
    Once(Atom),
    AnyNumber(Atom),
}
