// A message that changes its place.
use mh_base::MsgNum;

/// A message that is to get another number: the number that it has, and the one that is meant for it, its slot.
#[derive(Clone, Copy, Debug, PartialEq, Eq)]
pub struct Move {
    pub from: MsgNum,
    pub slot: MsgNum,
}
