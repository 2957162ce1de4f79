// Putting 2,000 messages into one folder in memory, step by step.
use folder_files::{
    Answer, ChangeList, Directory, DirectoryList, FileList, Files, LockList, OutsideList, Place,
    RunList, SlotList, Step, World,
};
use folder_room::{PromptList, Room};
use mh_base::{Bytes, Duplicate, Entry, FolderName, MsgNum, Name, Text, entry_name};
use std::alloc::Global;
use std::rt::Clock;
use std::test::Fail;
use std::time::Instant;

const RUN: u128 = 7;

const MESSAGES: u32 = 2_000;

fn inbox(alloc: Global) -> Result<Place, Fail> {
    let word = Text::from_str(alloc, "inbox")?;
    let Ok(name) = FolderName::read(alloc, &word) else {
        return Err("a folder".into());
    };
    Ok(Place::Folder(Bytes::from_slice(alloc, b"Mail")?, name))
}

/// An empty folder.
fn room(alloc: Global, place: &Place) -> Result<Room, Fail> {
    let mut directories = DirectoryList::new(alloc);
    directories.push(Directory {
        place: place.duplicate(alloc)?,
        safe: SlotList::new(alloc),
        pending: ChangeList::new(alloc),
    })?;
    let world = World {
        directories,
        files: FileList::new(alloc),
        drops: OutsideList::new(alloc),
        locks: LockList::new(alloc),
        ended: RunList::new(alloc),
    };
    Ok(Room::new(alloc, world, PromptList::new(alloc))?)
}

/// Whether the step was answered Done.
fn ask(alloc: Global, room: &mut Room, step: &Step) -> Result<bool, Fail> {
    Ok(matches!(room.act(alloc, RUN, step)?, Answer::Done))
}

/// A new file under a temporary name.
fn create(alloc: Global, place: &Place, temp: &Name) -> Result<Step, Fail> {
    let bytes = Bytes::from_slice(alloc, b"Subject: hello\n\nA message of a few words.\n")?;
    let place = place.duplicate(alloc)?;
    Ok(Step::Create(place, temp.duplicate(alloc)?, bytes))
}

fn sync_file(alloc: Global, place: &Place, temp: &Name) -> Result<Step, Fail> {
    let place = place.duplicate(alloc)?;
    Ok(Step::SyncFile(place, temp.duplicate(alloc)?))
}

fn link(alloc: Global, place: &Place, temp: &Name, number: MsgNum) -> Result<Step, Fail> {
    let name = entry_name(alloc, &Entry::Number(number))?;
    let place = place.duplicate(alloc)?;
    Ok(Step::Link(place, temp.duplicate(alloc)?, name))
}

fn unlink(alloc: Global, place: &Place, temp: &Name) -> Result<Step, Fail> {
    let place = place.duplicate(alloc)?;
    Ok(Step::Unlink(place, temp.duplicate(alloc)?))
}

/// The steps by which one message is put: the first, and so on to the fifth.
fn step(alloc: Global, place: &Place, temp: &Name, number: MsgNum, nth: u32) -> Result<Step, Fail> {
    match nth {
        0 => create(alloc, place, temp),
        1 => sync_file(alloc, place, temp),
        2 => link(alloc, place, temp, number),
        3 => unlink(alloc, place, temp),
        _ => Ok(Step::SyncFolder(place.duplicate(alloc)?)),
    }
}

/// Whether this step of them was answered Done.
fn is_done(
    alloc: Global,
    room: &mut Room,
    place: &Place,
    temp: &Name,
    number: MsgNum,
    nth: u32,
) -> Result<bool, Fail> {
    let step = step(alloc, place, temp, number, nth)?;
    ask(alloc, room, &step)
}

/// One message by five steps; how many were answered Done.
fn put(alloc: Global, room: &mut Room, place: &Place, number: MsgNum) -> Result<u32, Fail> {
    let temp = entry_name(alloc, &Entry::Temp(RUN, u64::from(number.get())))?;
    let mut done = 0u32;
    for nth in 0..5 {
        if is_done(alloc, room, place, &temp, number, nth)? {
            done = done.saturating_add(1);
        }
    }
    Ok(done)
}

fn put_all(alloc: Global) -> Result<u32, Fail> {
    let place = inbox(alloc)?;
    let mut room = room(alloc, &place)?;
    let mut done = 0u32;
    for number in 1..=MESSAGES {
        if let Some(number) = MsgNum::new(number) {
            done = done.saturating_add(put(alloc, &mut room, &place, number)?);
        }
    }
    Ok(done)
}

pub fn measure(rt: &(impl Print + Clock), alloc: Global) -> Result<(), Fail> {
    let start = Instant::now(rt)?;
    let done = put_all(alloc)?;
    let taken = start.elapsed(rt)?.as_millis();
    println!(rt; "put: {MESSAGES} messages, {done} steps done, {taken} ms")?;
    Ok(())
}
