// Why a command refuses.

use crate::FilePath;
use mh_base::{FolderName, Name, Text, WordWhy};

/// Which of a command's surroundings failed.
#[derive(Clone, Copy, Debug, PartialEq, Eq)]
pub enum Which {
    Files,
    Source,
    Out,
}

/// Why a command refuses. Nothing is lost by a refusal.
#[derive(Drop)]
pub enum Refusal {
    /// The word at this place is wrong, or a needed word is missing.
    BadSwitch { place: u64, why: WordWhy },
    /// The word, or a stored value, is no folder's name.
    BadFolder(Text),
    /// There is no such folder.
    NoFolder(FolderName),
    /// The word is no message name.
    BadSpec(Text),
    /// The word names one message that is not there.
    Absent(Text),
    /// No message lies in the range.
    EmptyRange(Text),
    /// The sequence gives no message.
    EmptySequence(Text),
    /// This is no name of a user's sequence.
    BadSequenceName(Text),
    /// The format is wrong from this byte on.
    BadFormat { at: u64 },
    /// A date word can't be read.
    BadDate(Text),
    /// The words are no expression.
    BadExpr { place: u64 },
    /// No chosen message matches.
    NoMatch,
    /// The drop is missing or empty.
    NoMail,
    /// The drop does not begin with a separator.
    NotADrop,
    /// A destination is the source.
    SameFolder(FolderName),
    /// The next number needed is above the greatest message number.
    Full(FolderName),
    /// This line of the draft, counted from 1, is the first wrong one.
    BadDraft { line: u64 },
    /// A chosen message lacks a wanted part.
    NoPart(Text),
    /// The file is there already.
    WouldReplace(Name),
    /// A text of this length in bytes is above its limit.
    TooLarge { length: u64, limit: u64 },
    /// Mail was delivered while the drop was read.
    DropGrown,
    /// A format file, draft or content file is not there.
    NoFile(FilePath),
    /// The drop changed while it was read.
    DropChanged,
}
