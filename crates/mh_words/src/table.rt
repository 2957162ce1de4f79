// The switches that a command knows.

use mh_base::{List, Text};

/// Whether a switch stands alone or takes the next word as its value.
#[derive(Clone, Copy, Debug, PartialEq, Eq)]
pub enum Kind {
    Flag,
    Value,
}

/// A switch: its full name without the dash, and its kind.
#[derive(Drop)]
pub struct Switch {
    pub name: Text,
    pub kind: Kind,
}

pub type SwitchList = List<Switch>;

/// The switches of a command, and whether it reads `--name value` as a component to search.
///
/// Of two switches of the same full name only the first is ever read, by that full name: a shorter
/// text is ambiguous.
#[derive(Drop)]
pub struct SwitchTable {
    pub switches: SwitchList,
    pub components: bool,
}
