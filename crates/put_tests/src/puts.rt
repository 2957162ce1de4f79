// Messages that are put into a folder of the mailbox in memory.
ghost use Rattle.std.specs.Prelude.{◌≤◌};

use crate::rooms::{Change, left};
use folder_files::{Files, Place};
use message_puts::put;
use mh_base::{Bytes, MsgNum};
use std::alloc::Global;
use std::test::Fail;
use step_plans::Hand;

/// Three messages: above the highest, where the number that is wished for is taken, and where it is free.
struct Putting;

/// Whether a message that is put into the folder gets this number.
fn gets<F: Files>(
    alloc: Global,
    hand: &mut Hand,
    files: &mut F,
    place: &Place,
    wish: Option<MsgNum>,
    highest: u32,
    wanted: u32,
) -> Result<bool, Fail>
    requires { highest ≤ 999999 }
{
    let mut bytes = Bytes::from_slice(alloc, b"new")?;
    let number = put(alloc, hand, files, place, &mut bytes, wish, highest).ok();
    Ok(number.map(MsgNum::get) == Some(wanted))
}

impl Change for Putting {
    fn is_made<F: Files>(alloc: Global, files: &mut F, place: &Place) -> Result<bool, Fail> {
        let mut hand = Hand::new(7, Bytes::from_slice(alloc, b"Mail")?);
        Ok(
            gets(alloc, &mut hand, files, place, None, 2, 3)?
                && gets(alloc, &mut hand, files, place, MsgNum::new(2), 3, 4)?
                && gets(alloc, &mut hand, files, place, MsgNum::new(9), 4, 9)?,
        )
    }
}

const WANTED: &[u8] = b"+inbox 1=\"one\" 2=\"two\" 3=\"new\" 4=\"new\" 9=\"new\"\n";

#[test]
fn messages_get_numbers(rt: HostRuntime) -> Result<(), Fail> {
    let told = left::<Putting>(rt.alloc(), b"+inbox 1 one 2 two")?;
    assert!(rt; told.as_slice() == WANTED);
    Ok(())
}
