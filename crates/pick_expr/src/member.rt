// The members of classes.

/// A member of a class.
#[derive(Clone, Copy)]
pub enum Member {
    /// A byte, which stands for both cases where it is a lower-case letter.
    Single(u8),
    /// `a-z`, the bytes between two, both included.
    Range(u8, u8),
}
