// What happens to a world.

ghost use Rattle.std.specs.Prelude.{◌≡◌, IfOk};

use crate::{Answer, FilePath, Step, World};
use mh_base::{Bytes, Duplicate, List};
use std::alloc::{AllocError, Global};

/// What a step left behind.
#[derive(Drop)]
pub enum After {
    /// It was not made.
    Before,
    /// It was made.
    Made,
    /// A Create made a file with these bytes.
    Torn(Bytes),
}

/// One event of a history.
#[derive(Drop)]
pub enum Event {
    /// A run's step, its answer and what it left.
    Act {
        run: u128,
        step: Step,
        answer: Answer,
        after: After,
    },
    /// Bytes are appended to an outside file.
    Deliver {
        path: FilePath,
        piece: Bytes,
    },
    /// The machine stops, and this world is found.
    Crash(World),
    /// A run ends and its locks fall.
    End {
        run: u128,
    },
}

pub type EventList = List<Event>;

pub type History = EventList;

impl Duplicate for After {
    fn duplicate(&self, alloc: Global) -> Result<After, AllocError> {
        match self {
            After::Before => Ok(After::Before),
            After::Made => Ok(After::Made),
            After::Torn(bytes) => Ok(After::Torn(bytes.duplicate(alloc)?)),
        }
    }
}
