// What is given for what a draft wants.

use mh_base::{Bytes, BytesList, List};

/// The bytes of a file, or of each message.
#[derive(Drop)]
pub enum Given {
    File(Bytes),
    Messages(BytesList),
}

pub type GivenList = List<Given>;
