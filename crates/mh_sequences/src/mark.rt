// Changes of sequences.
use crate::{NumSet, SeqName};
use mh_base::{List, MsgNum};

/// A message number and the one that it becomes.
#[derive(Clone, Copy, Debug, PartialEq, Eq, Drop)]
pub struct Pair {
    pub from: MsgNum,
    pub to: MsgNum,
}

pub type PairList = List<Pair>;

pub type SeqNameList = List<SeqName>;

pub type MarkList = List<Mark>;

/// A change of sequences. `public` makes a sequence public or private, where it says anything.
#[derive(Drop)]
pub enum Mark {
    /// Adds the numbers to the sequence.
    Add {
        name: SeqName,
        numbers: NumSet,
        public: Option<bool>,
    },
    /// Takes the numbers out of the sequence.
    Delete {
        name: SeqName,
        numbers: NumSet,
        public: Option<bool>,
    },
    /// Gives the sequence just these numbers.
    Set {
        name: SeqName,
        numbers: NumSet,
        public: Option<bool>,
    },
    /// Takes the numbers out of every sequence.
    Withdraw {
        numbers: NumSet,
    },
    /// Puts each number's new one in its place, all at once, in every sequence and as the current
    /// message.
    Move {
        pairs: PairList,
    },
    /// Sets the current message, or none.
    Cur(Option<MsgNum>),
}
