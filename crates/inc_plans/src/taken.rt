// What is known of messages that were taken in.

use mh_base::{List, MsgNum};

/// The numbers that the new messages got, and the highest number of the folder.
#[derive(Drop)]
pub struct Taken {
    pub numbers: List<MsgNum>,
    pub highest: u32,
}
