// Counts the messages of a drop.
ghost use Rattle.std.specs.Prelude.{◌≡◌, ◌+◌, ◌≤◌, ◌<◌, ◌^◌, ℕ, List, [], ◌∷◌, ◌++◌, false, length, MatchResult, IsTrue, None};
ghost use Rattle.mbox_drop.specs.Drops.{is_drop, messages};
ghost use Rattle.mbox_drop.specs.Long.{first_long};

use crate::fault::NotADrop;
use crate::leap::leap;
use crate::long::too_long;
use crate::place::{DropState, Match, Stage, Turn};

/// Counts the messages of a drop that comes in pieces, and takes no memory.
#[derive(Clone, Copy)]
pub struct DropCounter {
    place: DropState,
    size: usize,
    body: usize,
    count: u64,
    long: Option<u64>,
}

impl DropCounter {
    ghost use Rattle.mbox_drop.specs.Counting.{counted, grown_by, HasCounted};

    pub fn new() -> DropCounter
        ensures { HasCounted result [] }
    {
        DropCounter {
            place: DropState::First(Match::Nothing),
            size: 0,
            body: 0,
            count: 0,
            long: None,
        }
    }

    #[inline(always)]
    fn count(self, turn: Turn) -> DropCounter
        ensures { result ≡ counted self turn }
    {
        let size = self.size.saturating_add(1);
        match turn {
            Turn::Joins(place) => DropCounter {
                place,
                size,
                ..self
            },
            Turn::Empties(place) => DropCounter {
                place,
                size,
                body: self.size,
                ..self
            },
            Turn::Begins => DropCounter {
                place: DropState::Separator,
                size: 0,
                body: 0,
                count: self.count.saturating_add(1),
                long: self.long.or(too_long(self.body)),
            },
            Turn::Passes(place) => DropCounter { place, ..self },
        }
    }

    #[inline(always)]
    fn grow(self, count: usize) -> DropCounter
        ensures { result ≡ grown_by self count }
    {
        DropCounter {
            size: self.size.saturating_add(count),
            ..self
        }
    }

    /// Takes the next piece of a drop of at most 268,435,456 bytes.
    pub fn feed(&mut self, piece: &[u8])
        ensures { (d : List ℕ) → length d + length piece.now ≤ 268435456 → HasCounted self.old d
            → HasCounted self.new (d ++ piece.now) }
    {
        let start = leap(self.place, piece, 0);
        let mut counter = self.grow(start);
        let mut i = start;
        'bytes: while i < piece.len() {
            let counted = counter.count(counter.place.turn(piece[i]));
            let next = leap(counted.place, piece, i + 1);
            counter = counted.grow(next - i - 1);
            i = next;
        }
        *self = counter;
    }

    /// The number of the messages so far.
    pub fn end(&self) -> Result<u64, NotADrop>
        ensures { (d : List ℕ) → HasCounted self.now d
            → MatchResult result (λ n. IsTrue (is_drop d) × (n ≡ length (messages d))) (λ _. is_drop d ≡ false) }
    {
        match self.place.stage() {
            Stage::Unread => Ok(0),
            Stage::NoDrop => Err(NotADrop),
            Stage::Begun => Ok(self.count.saturating_add(1)),
        }
    }

    /// The length of the first message that is too long.
    pub fn too_long(&self) -> Option<u64>
        ensures drop { (d : List ℕ) → HasCounted self.now d → IsTrue (is_drop d) → result ≡ first_long (messages d) }
        ensures no_drop { (d : List ℕ) → HasCounted self.now d → is_drop d ≡ false → result ≡ None }
    {
        self.long
            .or(too_long(self.place.ended(self.body, self.size)))
    }
}
