// The messages of all drafts of three items are read back.
use crate::asked::Asked;
use crate::leaf::leaves;
use mh_base::Bytes;
use mh_drafts::{Draft, DraftFault};
use mhbuild_compose::compose;
use std::alloc::{AllocError, Global};
use std::test::Fail;

/// A draft of these items.
fn asked(alloc: Global, items: &[u64], several: bool) -> Result<Asked, AllocError> {
    let mut asked = Asked::new(alloc, several)?;
    for item in items {
        asked.item(*item)?;
    }
    asked.end()?;
    Ok(asked)
}

/// The message of a draft, or nothing where a line of it is wrong.
fn message(alloc: Global, asked: &Asked) -> Result<Bytes, AllocError> {
    match Draft::read(alloc, asked.draft.as_slice()) {
        Ok(draft) => compose(alloc, &draft, &asked.givens, 26),
        Err(DraftFault::Bad(_)) => Ok(Bytes::new(alloc)),
        Err(DraftFault::Memory) => Err(AllocError),
    }
}

/// Whether the message of a draft of these items has their leaves.
fn is_read_back(alloc: Global, items: &[u64]) -> Result<bool, AllocError> {
    let first = asked(alloc, items, true)?;
    let asked = if first.parts == 1 {
        asked(alloc, items, false)?
    } else {
        first
    };
    let message = message(alloc, &asked)?;
    let leaves = leaves(alloc, message.as_slice())?;
    Ok(leaves.as_slice() == asked.leaves.as_slice())
}

/// The first three items whose leaves are not read back, one behind another, or 1000.
fn first_lost(alloc: Global) -> Result<u64, AllocError> {
    for first in 0..7u64 {
        for second in 0..8u64 {
            for third in 0..8u64 {
                if !is_read_back(alloc, &[first, second, third])? {
                    return Ok(100 * first + 10 * second + third);
                }
            }
        }
    }
    Ok(1000)
}

#[test]
fn drafts_of_three_items(rt: HostRuntime) -> Result<(), Fail> {
    assert_eq!(rt; first_lost(rt.alloc())?, 1000);
    Ok(())
}

#[test]
fn an_odd_draft(rt: HostRuntime) -> Result<(), Fail> {
    let alloc = rt.alloc();
    let asked = asked(alloc, &[6, 1], true)?;
    let message = message(alloc, &asked)?;
    assert!(rt;
        leaves(alloc, message.as_slice())?.as_slice()
            == b"11 text/plain: From here on, \"plain\": text.\n\n.\n\x01\n121 image/gif: \x00\x01GIF89a\r\n\r\n--mh-\xff\xfe\n\n.\nFrom x\n\x01\n122 text/x-c: caf\xc3\xa9 = =20 \t\n\x01\n2 text/plain: caf\xc3\xa9 = =20 \t\n\x01\n".as_slice()
    );
    Ok(())
}
