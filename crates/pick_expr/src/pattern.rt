// Patterns of lines.
ghost use Rattle.std.specs.Prelude.{◌≡◌, ◌≤◌, ◌↔◌, IfOk, IsErrOf, IsTrue, length, None, Some};
ghost use Rattle.std.specs.Str.{encode_utf8_all};
ghost use Rattle.pick_expr.specs.Reading.{pattern_in};

use crate::elements::{ReadElements, read_elements};
use crate::finding::{found, reaches_start};
use crate::resting::Resting;
use crate::{Element, PatternFault};
use mh_base::{List, Text};
use std::alloc::{AllocError, Global};
use std::marker::Model;

/// A pattern, which contracts see as its atoms with their stars, and whether the piece of a line that
/// they fit is to stand at its start and at its end.
#[derive(Drop)]
pub struct Pattern {
    elements: List<Element>,
    from_start: bool,
    to_end: bool,
    resting: Resting,
}

impl Model for Pattern {
    ghost use Rattle.std.specs.Prelude.{◌≤◌, length};
    ghost use Rattle.pick_expr.specs.Fitting.{Shape};
    ghost use Rattle.pick_expr.specs.Resting.{IsResting};

    ghost Value = { Shape };

    ghost view = { λ p. record { elements = p.elements; from_start = p.from_start; to_end = p.to_end } };

    ghost invariant = { λ p. (length p.elements ≤ 127) × IsResting p.elements p.to_end p.resting };
}

fn shaped(alloc: Global, read: ReadElements, from_start: bool) -> Result<Pattern, AllocError>
    requires { length read.elements ≤ 127 }
    ensures { IfOk result
        (λ p. p ≡ record { elements = read.elements; from_start = from_start; to_end = read.to_end }) }
{
    let resting = Resting::of(alloc, read.elements.as_slice(), read.to_end)?;
    Ok(Pattern {
        elements: read.elements,
        from_start,
        to_end: read.to_end,
        resting,
    })
}

impl Pattern {
    ghost use Rattle.pick_expr.specs.Fitting.{Matches};
    ghost use Rattle.pick_expr.specs.Finishing.{is_match};

    /// Reads a pattern, by the bytes of the text.
    pub fn read(alloc: Global, text: &Text) -> Result<Pattern, PatternFault>
        ensures pattern { IfOk result (λ p. pattern_in (encode_utf8_all text.now) ≡ Some p) }
        ensures bad { IsErrOf result PatternFault.Bad → pattern_in (encode_utf8_all text.now) ≡ None }
    {
        let bytes = text.as_str().as_bytes();
        let (from_start, elements) = match bytes.split_first() {
            Some((b'^', elements)) => (true, elements),
            _ => (false, bytes),
        };
        match read_elements(alloc, elements)? {
            Some(read) => Ok(shaped(alloc, read, from_start)?),
            None => Err(PatternFault::Bad),
        }
    }

    /// Whether some piece of the line fits. Takes time linear in the line, and no memory.
    pub fn matches(&self, line: &[u8]) -> bool
        ensures fits { IsTrue result ↔ Matches self.now line.now }
        ensures value { result ≡ is_match self.now line.now }
    {
        let elements = self.elements.as_slice();
        if self.from_start {
            reaches_start(elements, self.to_end, &self.resting, line)
        } else {
            found(elements, self.to_end, &self.resting, line)
        }
    }

    /// Its atoms with their stars.
    pub fn elements(&self) -> &[Element]
        ensures { result.now ≡ self.now.elements }
    {
        self.elements.as_slice()
    }

    /// Whether the piece is to stand at the line's start.
    pub fn is_from_start(&self) -> bool
        ensures { result ≡ self.now.from_start }
    {
        self.from_start
    }

    /// Whether the piece is to stand at the line's end.
    pub fn is_to_end(&self) -> bool
        ensures { result ≡ self.now.to_end }
    {
        self.to_end
    }
}
