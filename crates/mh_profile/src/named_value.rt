// One entry.
use mh_base::{Bytes, List};

/// An entry: its name as it was spelled, and its value on one line.
#[derive(Drop)]
pub struct NamedValue {
    pub name: Bytes,
    pub value: Bytes,
}

pub type EntryList = List<NamedValue>;
