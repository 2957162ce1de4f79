// Patterns at rest: the bytes of a line at which nothing changes.
ghost use Rattle.std.specs.Prelude.{◌≤◌, ◌∷◌, ℕ, Bool, List, drop, length, IfOk};
ghost use Rattle.pick_expr.specs.declared.element.Element.{Element as ElementValue};
ghost use Rattle.pick_expr.specs.Finishing.{AreFinishing};
ghost use Rattle.pick_expr.specs.Resting.{AreIdle, IsResting, Passes};

use crate::Element;
use crate::masks::Masks;
use crate::matching::{last_places, step};
use crate::places::Places;
use std::alloc::{AllocError, Global};

/// What is the same for all lines: the places at a line's end, the places at rest, which bytes leave
/// those at rest as they are, and the masks by which steps are made.
#[derive(Drop)]
pub(crate) struct Resting {
    pub last: Places,
    rest: Places,
    idle: [bool; 256],
    masks: Masks,
}

/// The bytes that leave these places as they are.
fn idle_bytes(elements: &[Element], to_end: bool, places: Places) -> [bool; 256]
    requires { length elements.now ≤ 127 }
    ensures { AreIdle elements.now to_end places result }
{
    let mut idle = [false; 256];
    for byte in 0..256 {
        idle[byte] = step(elements, to_end, places, byte as u8).is(places);
    }
    idle
}

impl Resting {
    /// The places at rest are those behind a byte that no atom admits.
    pub fn of(alloc: Global, elements: &[Element], to_end: bool) -> Result<Resting, AllocError>
        requires { length elements.now ≤ 127 }
        ensures { IfOk result (λ r. IsResting elements.now to_end r) }
    {
        let last = last_places(elements);
        let rest = if to_end { Places::none() } else { last };
        Ok(Resting {
            last,
            rest,
            idle: idle_bytes(elements, to_end, rest),
            masks: Masks::of(alloc, elements, to_end)?,
        })
    }

    /// The places one byte before.
    pub fn step(&self, elements: &[Element], to_end: bool, places: Places, byte: u8) -> Places
        requires few { length elements.now ≤ 127 }
        requires resting { IsResting elements.now to_end self.now }
        ensures { (rest : List ℕ) → AreFinishing elements.now to_end rest places
            → AreFinishing elements.now to_end (byte ∷ rest) result }
    {
        self.masks.step(elements, to_end, places, byte)
    }

    /// Goes back over idle bytes.
    fn pass_idle(&self, line: &[u8], from: usize) -> usize
        requires { from ≤ length line.now }
        ensures inside { result ≤ from }
        ensures passes { (elements : List ElementValue) (to_end : Bool) → IsResting elements to_end self.now
            → Passes elements to_end self.now.rest (drop from line.now) (drop result line.now) }
    {
        let mut at = from;
        while at > 0 {
            if !self.idle[line[at - 1] as usize] {
                return at;
            }
            at -= 1;
        }
        at
    }

    /// Goes back over the bytes that leave these places as they are, if these are the places at rest.
    pub fn pass(&self, places: Places, line: &[u8], from: usize) -> usize
        requires { from ≤ length line.now }
        ensures inside { result ≤ from }
        ensures passes { (elements : List ElementValue) (to_end : Bool) → IsResting elements to_end self.now
            → Passes elements to_end places (drop from line.now) (drop result line.now) }
    {
        if places.is(self.rest) {
            self.pass_idle(line, from)
        } else {
            from
        }
    }
}
