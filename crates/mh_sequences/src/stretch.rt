// Stretches of numbers.

/// The last of the numbers of which, from some number on, a set has all or none.
#[derive(Clone, Copy)]
pub(crate) struct Stretch {
    pub(crate) all: bool,
    pub(crate) to: u32,
}
