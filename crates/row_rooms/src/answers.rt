// What a step is answered, as told.
use folder_files::Answer;
use mh_base::{Bytes, NameList};
use row_text::show_quoted;
use std::alloc::Global;
use std::test::Fail;

/// The names, behind spaces.
fn show_names(told: &mut Bytes, names: &NameList) -> Result<(), Fail> {
    told.extend(b"names")?;
    for name in names.as_slice() {
        told.extend(b" ")?;
        told.extend(name.bytes())?;
    }
    Ok(())
}

fn show_piece(alloc: Global, told: &mut Bytes, bytes: &Bytes, length: u64) -> Result<(), Fail> {
    show_quoted(told, bytes.as_slice())?;
    told.extend(format!(in alloc; " of {length}")?.as_bytes())?;
    Ok(())
}

fn show_long(alloc: Global, told: &mut Bytes, length: u64) -> Result<(), Fail> {
    told.extend(format!(in alloc; "long {length}")?.as_bytes())?;
    Ok(())
}

/// The word for an answer that has nothing else to say.
fn word_of(answer: &Answer) -> &'static [u8] {
    match answer {
        Answer::Done => b"done",
        Answer::Gone => b"gone",
        Answer::Exists => b"exists",
        Answer::Busy => b"busy",
        Answer::Grown => b"grown",
        _ => b"failed",
    }
}

fn show(alloc: Global, told: &mut Bytes, answer: &Answer) -> Result<(), Fail> {
    match answer {
        Answer::Names(names) => show_names(told, names),
        Answer::Content(bytes) => show_quoted(told, bytes.as_slice()),
        Answer::Piece { bytes, length } => show_piece(alloc, told, bytes, *length),
        Answer::Long(length) => show_long(alloc, told, *length),
        _ => Ok(told.extend(word_of(answer))?),
    }
}

/// A line with its word; of a listing `names` and these, of a file its bytes, of a piece its bytes and the length of
/// the whole, and of a file that is longer than was asked for `long` and its length.
pub fn show_answer(alloc: Global, told: &mut Bytes, answer: &Answer) -> Result<(), Fail> {
    show(alloc, told, answer)?;
    told.extend(b"\n")?;
    Ok(())
}
