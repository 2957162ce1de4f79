// Pieces of lines that fit, found from a line's end on.
ghost use Rattle.std.specs.Prelude.{◌≡◌, ◌≤◌, length};
ghost use Rattle.pick_expr.specs.Finishing.{finishes, found_by};
ghost use Rattle.pick_expr.specs.Resting.{IsResting};

use crate::Element;
use crate::resting::Resting;

/// Whether the elements fit a piece at the line's start.
pub(crate) fn reaches_start(
    elements: &[Element],
    to_end: bool,
    resting: &Resting,
    line: &[u8],
) -> bool
    requires few { length elements.now ≤ 127 }
    requires resting { IsResting elements.now to_end resting.now }
    ensures { result ≡ finishes elements.now to_end line.now }
{
    let mut places = resting.last;
    let mut at = resting.pass(places, line, line.len());
    while at > 0 {
        places = resting.step(elements, to_end, places, line[at - 1]);
        at = resting.pass(places, line, at - 1);
    }
    places.has(0)
}

/// Whether they fit a piece anywhere in the line.
pub(crate) fn found(elements: &[Element], to_end: bool, resting: &Resting, line: &[u8]) -> bool
    requires few { length elements.now ≤ 127 }
    requires resting { IsResting elements.now to_end resting.now }
    ensures { result ≡ found_by (finishes elements.now to_end) line.now }
{
    let mut places = resting.last;
    if places.has(0) {
        return true;
    }
    let mut at = resting.pass(places, line, line.len());
    while at > 0 {
        places = resting.step(elements, to_end, places, line[at - 1]);
        if places.has(0) {
            return true;
        }
        at = resting.pass(places, line, at - 1);
    }
    false
}
