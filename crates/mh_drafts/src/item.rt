// What stands in a draft, from its front to its end.

use crate::{Kind, Label};
use mh_base::{Bytes, List};

/// What holds no other parts: lines of the draft, messages, or a file.
#[derive(Drop)]
pub enum Leaf {
    Text(Bytes),
    Messages,
    File(Label),
}

/// A leaf, or where a multipart begins or ends.
#[derive(Drop)]
pub enum Item {
    Leaf(Leaf),
    Begin(Kind),
    End,
}

pub type ItemList = List<Item>;
