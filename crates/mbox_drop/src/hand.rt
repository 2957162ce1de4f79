// The bytes in hand, as a message.
ghost use Rattle.std.specs.Prelude.{◌≡◌, ◌≤◌, ◌+◌, ◌++◌, length, OnOk, OnErr, take, vec_len};
ghost use Rattle.mbox_drop.specs.Last.{AnswersLast};

use crate::fault::CutFault;
use crate::long::too_long;
use mh_base::Bytes;
use std::alloc::AllocError;

/// Makes of the bytes in hand, and of those that follow, the message that they begin with.
pub fn complete(hand: &mut Vec<u8>, body: usize, rest: &[u8]) -> Result<(), AllocError>
    requires { body ≤ vec_len hand.old + length rest.now }
    ensures ok { OnOk result (hand.new.items ≡ take body (hand.old.items ++ rest.now)) }
    ensures err { OnErr result (hand.new.items ≡ hand.old.items) }
{
    let missing = body.saturating_sub(hand.len());
    hand.extend_from_slice(&rest[..missing])?;
    hand.truncate(body);
    Ok(())
}

/// The message that the bytes in hand begin with, as the last.
pub fn last_message(hand: Vec<u8>, length: usize) -> Result<Option<Bytes>, CutFault>
    requires { length ≤ vec_len hand }
    ensures { AnswersLast (take length hand.items) result }
{
    if let Some(excess) = too_long(length) {
        return Err(CutFault::TooLong(excess));
    }
    let mut message = hand;
    message.truncate(length);
    Ok(Some(Bytes::from_vec(message)))
}
