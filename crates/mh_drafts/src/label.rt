// Labels of files.

use mh_base::{Bytes, List};

/// A parameter of a type, and its value without quotes.
#[derive(Drop)]
pub struct Attribute {
    pub name: Bytes,
    pub value: Bytes,
}

pub type AttributeList = List<Attribute>;

/// What a draft says of a file that becomes a part. Type and subtype are lower case.
#[derive(Drop)]
pub struct Label {
    pub kind: Bytes,
    pub subtype: Bytes,
    pub attributes: AttributeList,
    pub comment: Option<Bytes>,
    pub id: Option<Bytes>,
    pub description: Option<Bytes>,
    pub disposition: Option<Bytes>,
}
