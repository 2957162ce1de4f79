// Scripts of what else happens while a run works in memory.

use folder_files::{After, FilePath, Place, Step};
use mh_base::{Bytes, List, NumberList};

/// Something that a script makes happen.
#[derive(Drop)]
pub enum Happening {
    /// Another run's step.
    Other {
        run: u128,
        step: Step,
    },
    /// Bytes are appended to an outside file.
    Deliver {
        path: FilePath,
        piece: Bytes,
    },
    /// The call fails.
    Fail {
        after: After,
    },
    /// The machine stops. What is kept is said by place; `fill` stands for each byte of a file that
    /// was not safe; `made` says whether the step itself was made first.
    Crash {
        keep: KeepList,
        fill: u8,
        made: bool,
    },
}

/// The pending changes of a directory that a crash keeps, by their places from 0.
#[derive(Drop)]
pub struct Keep {
    pub place: Place,
    pub changes: NumberList,
}

/// What happens just before the `at`-th call, counted from 1.
#[derive(Drop)]
pub struct Prompt {
    pub at: u64,
    pub what: Happening,
}

pub type KeepList = List<Keep>;

pub type PromptList = List<Prompt>;
