// Answers by the kind of step.
ghost use Rattle.std.specs.Prelude.{◌≡◌};
ghost use Rattle.file_plans.specs.Asking.{listing_of, reading_of, folder_made_of, entered_of, touched_of, locking_of, drop_piece_of, drop_cut_of};

use folder_files::Answer;
use mh_base::{Bytes, NameList};

/// What a List is answered.
#[derive(Drop)]
pub enum Listing {
    Names(NameList),
    Gone,
}

/// What a Read or a ReadFile is answered.
#[derive(Drop)]
pub enum Reading {
    Content(Bytes),
    Long(u64),
    Gone,
}

/// What a MakeFolder is answered.
#[derive(Drop)]
pub enum FolderMade {
    Done,
    Exists,
}

/// What a Create or a Link is answered.
#[derive(Drop)]
pub enum Entered {
    Done,
    Exists,
    Gone,
}

/// What a Rename, an Unlink or a sync is answered.
#[derive(Drop)]
pub enum Touched {
    Done,
    Gone,
}

/// What a Lock is answered.
#[derive(Drop)]
pub enum Locking {
    Done,
    Busy,
    Gone,
}

/// What a ReadDrop is answered.
#[derive(Drop)]
pub enum DropPiece {
    Piece { bytes: Bytes, length: u64 },
    Gone,
}

/// What a CutDrop is answered.
#[derive(Drop)]
pub enum DropCut {
    Done,
    Grown,
    Gone,
}

pub(crate) fn listing_from(answer: Answer) -> Listing
    ensures { result ≡ listing_of answer }
{
    match answer {
        Answer::Names(names) => Listing::Names(names),
        _ => Listing::Gone,
    }
}

pub(crate) fn reading_from(answer: Answer) -> Reading
    ensures { result ≡ reading_of answer }
{
    match answer {
        Answer::Content(bytes) => Reading::Content(bytes),
        Answer::Long(length) => Reading::Long(length),
        _ => Reading::Gone,
    }
}

pub(crate) fn folder_made_from(answer: Answer) -> FolderMade
    ensures { result ≡ folder_made_of answer }
{
    match answer {
        Answer::Done => FolderMade::Done,
        _ => FolderMade::Exists,
    }
}

pub(crate) fn entered_from(answer: Answer) -> Entered
    ensures { result ≡ entered_of answer }
{
    match answer {
        Answer::Done => Entered::Done,
        Answer::Exists => Entered::Exists,
        _ => Entered::Gone,
    }
}

pub(crate) fn touched_from(answer: Answer) -> Touched
    ensures { result ≡ touched_of answer }
{
    match answer {
        Answer::Done => Touched::Done,
        _ => Touched::Gone,
    }
}

pub(crate) fn locking_from(answer: Answer) -> Locking
    ensures { result ≡ locking_of answer }
{
    match answer {
        Answer::Done => Locking::Done,
        Answer::Busy => Locking::Busy,
        _ => Locking::Gone,
    }
}

pub(crate) fn drop_piece_from(answer: Answer) -> DropPiece
    ensures { result ≡ drop_piece_of answer }
{
    match answer {
        Answer::Piece { bytes, length } => DropPiece::Piece { bytes, length },
        _ => DropPiece::Gone,
    }
}

pub(crate) fn drop_cut_from(answer: Answer) -> DropCut
    ensures { result ≡ drop_cut_of answer }
{
    match answer {
        Answer::Done => DropCut::Done,
        Answer::Grown => DropCut::Grown,
        _ => DropCut::Gone,
    }
}
