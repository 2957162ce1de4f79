// Pieces of lines that fit, tried one after another.
ghost use Rattle.std.specs.Prelude.{◌≡◌, ◌↔◌, Bool, IsTrue};
ghost use Rattle.pick_expr.specs.Finishing.{ends_by, finishes, found_by};
ghost use Rattle.pick_expr.specs.Fitting.{Matches};

use pick_expr::{Element, Pattern};

fn ends(to_end: bool, line: &[u8]) -> bool
    ensures { result ≡ ends_by to_end line.now }
{
    !to_end || line.is_empty()
}

/// Whether the elements fit a piece at the line's start.
pub(crate) fn fits(elements: &[Element], to_end: bool, line: &[u8]) -> bool
    ensures { result ≡ finishes elements.now to_end line.now }
{
    match (elements.split_first(), line.split_first()) {
        (None, _) => ends(to_end, line),
        (Some((Element::Once(atom), rest)), Some((byte, behind))) => {
            atom.admits(*byte) && fits(rest, to_end, behind)
        }
        (Some((Element::Once(_), _)), None) => false,
        (Some((Element::AnyNumber(atom), rest)), Some((byte, behind))) => {
            fits(rest, to_end, line) || atom.admits(*byte) && fits(elements, to_end, behind)
        }
        (Some((Element::AnyNumber(_), rest)), None) => fits(rest, to_end, line),
    }
}

/// Whether they fit a piece anywhere in the line.
pub(crate) fn fits_somewhere(elements: &[Element], to_end: bool, line: &[u8]) -> bool
    ensures { result ≡ found_by (finishes elements.now to_end) line.now }
{
    if fits(elements, to_end, line) {
        return true;
    }
    match line.split_first() {
        Some((_, behind)) => fits_somewhere(elements, to_end, behind),
        None => false,
    }
}

/// Whether some piece of the line fits.
pub(crate) fn matches_plainly(pattern: &Pattern, line: &[u8]) -> bool
    ensures { IsTrue result ↔ Matches pattern.now line.now }
{
    if pattern.is_from_start() {
        fits(pattern.elements(), pattern.is_to_end(), line)
    } else {
        fits_somewhere(pattern.elements(), pattern.is_to_end(), line)
    }
}
