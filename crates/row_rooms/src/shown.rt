// What a directory has, or a file outside, as a run sees it.
use file_plans::{
    DropPiece, Listing, Locking, Reading, ask_list, ask_lock, ask_read, ask_read_drop,
};
use folder_files::{FilePath, Files, Place};
use mh_base::{Bytes, Name, NameList};
use row_text::show_quoted;
use std::alloc::Global;
use std::test::Fail;

fn show_reading(told: &mut Bytes, name: &Name, reading: &Reading) -> Result<(), Fail> {
    told.extend(b" ")?;
    told.extend(name.bytes())?;
    told.extend(b"=")?;
    match reading {
        Reading::Content(bytes) => show_quoted(told, bytes.as_slice()),
        _ => Ok(()),
    }
}

/// Each name with its bytes, behind a space.
fn show_names<F: Files>(
    alloc: Global,
    files: &mut F,
    run: u128,
    place: &Place,
    names: &NameList,
    told: &mut Bytes,
) -> Result<(), Fail> {
    for name in names.as_slice() {
        let reading = ask_read(alloc, run, files, place, name, u64::MAX)?;
        show_reading(told, name, &reading)?;
    }
    told.extend(b"\n")?;
    Ok(())
}

/// Each name with its bytes, behind a space, on one line; ` is not there` where the directory isn't.
pub fn show_place<F: Files>(
    alloc: Global,
    files: &mut F,
    run: u128,
    place: &Place,
    told: &mut Bytes,
) -> Result<(), Fail> {
    match ask_list(alloc, run, files, place)? {
        Listing::Names(names) => show_names(alloc, files, run, place, &names, told),
        _ => Ok(told.extend(b" is not there\n")?),
    }
}

fn show_piece(told: &mut Bytes, bytes: &Bytes) -> Result<(), Fail> {
    told.extend(b" ")?;
    show_quoted(told, bytes.as_slice())?;
    told.extend(b"\n")?;
    Ok(())
}

/// The bytes of a file outside, behind a space; ` is not there` where it isn't.
pub fn show_drop<F: Files>(
    alloc: Global,
    files: &mut F,
    run: u128,
    path: &FilePath,
    told: &mut Bytes,
) -> Result<(), Fail> {
    match ask_read_drop(alloc, run, files, path, 0, u64::MAX)? {
        DropPiece::Piece { bytes, .. } => show_piece(told, &bytes),
        DropPiece::Gone => Ok(told.extend(b" is not there\n")?),
    }
}

fn state(locking: Locking) -> &'static [u8] {
    match locking {
        Locking::Done => b" is free\n",
        Locking::Busy => b" is locked\n",
        Locking::Gone => b" is not there\n",
    }
}

/// Whether a run gets the directory's lock, behind a space.
pub fn show_lock<F: Files>(
    alloc: Global,
    files: &mut F,
    run: u128,
    place: &Place,
    told: &mut Bytes,
) -> Result<(), Fail> {
    let locking = ask_lock(alloc, run, files, place)?;
    Ok(told.extend(state(locking))?)
}
