// Steps from a line's end on: the set of the places in a pattern from which the elements that are left
// fit what was passed.
ghost use Rattle.std.specs.Prelude.{◌≡◌, ℕ, List, [], ◌∷◌, ◌≤◌, Bool, length};
ghost use Rattle.pick_expr.specs.Finishing.{AreFinishing, goes_on, starred};

use crate::Element;
use crate::places::Places;

/// Whether the elements from a place on fit, by whether those from there on and those behind it fit
/// what follows the byte, and whether those behind it fit the byte with what follows.
fn fits_on(element: &Element, byte: u8, here: bool, behind: bool, behind_now: bool) -> bool
    ensures { result ≡ goes_on element.now byte here behind behind_now }
{
    match element {
        Element::Once(atom) => behind && atom.admits(byte),
        Element::AnyNumber(atom) => behind_now || here && atom.admits(byte),
    }
}

fn is_starred(element: &Element) -> bool
    ensures { result ≡ starred element.now }
{
    matches!(element, Element::AnyNumber(_))
}

/// The places at a line's end.
pub(crate) fn last_places(elements: &[Element]) -> Places
    requires { length elements.now ≤ 127 }
    ensures { (to_end : Bool) → AreFinishing elements.now to_end [] result }
{
    let mut at = elements.len();
    let mut places = Places::none().with(at);
    while at > 0 {
        let behind = places.has(at);
        at -= 1;
        places = places.with_if(at, is_starred(&elements[at]) && behind);
    }
    places
}

/// The places one byte before. It ends early where no place that is left can be set.
pub(crate) fn step(elements: &[Element], to_end: bool, places: Places, byte: u8) -> Places
    requires { length elements.now ≤ 127 }
    ensures { (rest : List ℕ) → AreFinishing elements.now to_end rest places
        → AreFinishing elements.now to_end (byte ∷ rest) result }
{
    let least = places.least();
    let mut at = elements.len();
    let mut next = Places::none().with_if(at, !to_end);
    let mut behind = places.has(at);
    let mut behind_now = next.has(at);
    while at > 0 {
        if at < least && !behind_now {
            return next;
        }
        at -= 1;
        let here = places.has(at);
        behind_now = fits_on(&elements[at], byte, here, behind, behind_now);
        next = next.with_if(at, behind_now);
        behind = here;
    }
    next
}
