// Runs that sequences are given.
use crate::Run;

/// A run that a text or the context gives the sequence of a name.
#[derive(Clone, Copy, Drop)]
pub(crate) struct Mention<'a> {
    pub(crate) name: &'a [u8],
    pub(crate) run: Run,
}
