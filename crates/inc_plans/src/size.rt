// What is counted in a drop.

/// How long a drop is, in bytes, and how many messages it has.
#[derive(Clone, Copy, Debug, PartialEq, Eq)]
pub struct DropSize {
    pub length: u64,
    pub messages: u64,
}
