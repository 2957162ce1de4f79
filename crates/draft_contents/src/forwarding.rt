// What forwards messages.

use mh_base::{Bytes, Text};

/// What the words of a directive leave open: the name that is stored for the current folder, and the prefix of
/// negation, which is empty where there is none.
#[derive(Drop)]
pub struct Forwarding {
    pub current: Text,
    pub negation: Bytes,
}
