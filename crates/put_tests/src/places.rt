// Messages of one folder that change places, in the mailbox in memory.
use crate::rooms::{Change, left};
use folder_files::{Files, Place};
use message_places::{Move, arrange};
use mh_base::{List, MsgNum};
use std::alloc::{AllocError, Global};
use std::test::Fail;

/// The first message goes to the third place and the third to the first.
struct Swapping;

/// The messages that are held aside.
fn takes(alloc: Global, one: MsgNum, three: MsgNum) -> Result<List<MsgNum>, AllocError> {
    let mut takes = List::new(alloc);
    takes.push(one)?;
    takes.push(three)?;
    Ok(takes)
}

fn moves(alloc: Global, one: MsgNum, three: MsgNum) -> Result<List<Move>, AllocError> {
    let mut moves = List::new(alloc);
    moves.push(Move {
        from: one,
        slot: three,
    })?;
    moves.push(Move {
        from: three,
        slot: one,
    })?;
    Ok(moves)
}

/// Whether each ended there.
fn is_swapped<F: Files>(
    alloc: Global,
    files: &mut F,
    place: &Place,
    one: MsgNum,
    three: MsgNum,
) -> Result<bool, Fail> {
    let takes = takes(alloc, one, three)?;
    let moves = moves(alloc, one, three)?;
    let ends = arrange(
        alloc,
        7,
        files,
        place,
        takes.as_slice(),
        moves.as_slice(),
        3,
    );
    Ok(
        ends.ok()
            .is_some_and(|ends| ends.as_slice() == [three, one].as_slice()),
    )
}

impl Change for Swapping {
    fn is_made<F: Files>(alloc: Global, files: &mut F, place: &Place) -> Result<bool, Fail> {
        match (MsgNum::new(1), MsgNum::new(3)) {
            (Some(one), Some(three)) => is_swapped(alloc, files, place, one, three),
            _ => Ok(false),
        }
    }
}

const WANTED: &[u8] = b"+inbox 1=\"three\" 2=\"two\" 3=\"one\"\n";

#[test]
fn messages_change_places(rt: HostRuntime) -> Result<(), Fail> {
    let told = left::<Swapping>(rt.alloc(), b"+inbox 1 one 2 two 3 three")?;
    assert!(rt; told.as_slice() == WANTED);
    Ok(())
}
