// Messages that get lines in front, in the mailbox in memory.
use crate::rooms::{Change, left};
use folder_files::{Files, Place};
use message_notes::note_messages;
use mh_base::{Bytes, List, MsgNum};
use std::alloc::{AllocError, Global};
use std::test::Fail;
use step_plans::Hand;

/// The first and the third message get a line.
struct Noting;

fn numbers(alloc: Global) -> Result<List<MsgNum>, AllocError> {
    let mut numbers = List::new(alloc);
    for number in [1, 3] {
        if let Some(number) = MsgNum::new(number) {
            numbers.push(number)?;
        }
    }
    Ok(numbers)
}

impl Change for Noting {
    fn is_made<F: Files>(alloc: Global, files: &mut F, place: &Place) -> Result<bool, Fail> {
        let numbers = numbers(alloc)?;
        let mut hand = Hand::new(7, Bytes::from_slice(alloc, b"Mail")?);
        let noted = note_messages(
            alloc,
            &mut hand,
            files,
            place,
            b"Note: hi\n",
            numbers.as_slice(),
            3,
        );
        Ok(noted.ok().is_some())
    }
}

const WANTED: &[u8] = b"+inbox 1=\"Note: hi\\none\" 2=\"two\" 3=\"Note: hi\\nthree\"\n";

#[test]
fn messages_get_lines(rt: HostRuntime) -> Result<(), Fail> {
    let told = left::<Noting>(rt.alloc(), b"+inbox 1 one 2 two 3 three")?;
    assert!(rt; told.as_slice() == WANTED);
    Ok(())
}
