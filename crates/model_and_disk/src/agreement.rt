// Whether both answered the same.
use folder_files::Answer;
use mh_base::{Entry, Name, NameList, entry_of};
use std::alloc::Global;
use std::test::Fail;

/// What a step was answered by the model and on the disk.
#[derive(Drop)]
pub struct Answers {
    pub model: Answer,
    pub disk: Answer,
}

fn is_lock(name: &Name) -> bool {
    matches!(entry_of(name.bytes()), Entry::LockFile)
}

/// The names but the lock's. By design the disk lists it once a lock was asked for, and the model never does.
fn without_lock<'a>(alloc: Global, names: &'a [Name]) -> Result<Vec<&'a Name>, Fail> {
    let mut others = Vec::new(alloc);
    for name in names {
        if !is_lock(name) {
            others.push(name)?;
        }
    }
    Ok(others)
}

fn are_same_at(model: &[Name], disk: &[&Name], place: usize) -> bool {
    match (model.get(place), disk.get(place)) {
        (Some(one), Some(other)) => one.same(other),
        _ => false,
    }
}

fn are_same_names(alloc: Global, model: &NameList, disk: &NameList) -> Result<bool, Fail> {
    let disk = without_lock(alloc, disk.as_slice())?;
    let most = model.len().max(disk.len());
    Ok((0..most).all(|place| are_same_at(model.as_slice(), disk.as_slice(), place)))
}

fn are_same_words(model: &Answer, disk: &Answer) -> bool {
    match (model, disk) {
        (Answer::Done, Answer::Done)
        | (Answer::Gone, Answer::Gone)
        | (Answer::Exists, Answer::Exists)
        | (Answer::Busy, Answer::Busy)
        | (Answer::Grown, Answer::Grown)
        | (Answer::Failed, Answer::Failed) => true,
        (Answer::Long(one), Answer::Long(other)) => one == other,
        _ => false,
    }
}

/// Whether both answered the same.
pub fn agree(alloc: Global, answers: &Answers) -> Result<bool, Fail> {
    match (&answers.model, &answers.disk) {
        (Answer::Names(model), Answer::Names(disk)) => are_same_names(alloc, model, disk),
        (Answer::Content(model), Answer::Content(disk)) => Ok(model.same(disk)),
        (
            Answer::Piece { bytes, length },
            Answer::Piece {
                bytes: other,
                length: other_length,
            },
        ) => Ok(bytes.same(other) && length == other_length),
        (model, disk) => Ok(are_same_words(model, disk)),
    }
}
