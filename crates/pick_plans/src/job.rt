// What `pick` is to do.

use mh_base::{Bytes, FolderName, TextList};
use mh_sequences::SeqNameList;
use pick_expr::Expr;

/// What is done to the sequences.
#[derive(Clone, Copy, Debug, PartialEq, Eq)]
pub enum PickAct {
    /// They have just the messages that match.
    Set,
    /// The messages that match come to them.
    Add,
}

/// The sequences that the messages which match are brought into: their names, whether they become public or private,
/// and what is done to them.
#[derive(Drop)]
pub struct PickMarks {
    pub names: SeqNameList,
    pub public: Option<bool>,
    pub act: PickAct,
}

/// What `pick` is to do: the folder, the words that choose messages, the expression that is tested with each of them,
/// the sequences that those which match are brought into, or none where nothing is marked; whether they are listed, and
/// the prefix of negation, which is empty where there is none.
#[derive(Drop)]
pub struct PickJob {
    pub folder: FolderName,
    pub specs: TextList,
    pub expr: Expr,
    pub marks: Option<PickMarks>,
    pub list: bool,
    pub negation: Bytes,
}
