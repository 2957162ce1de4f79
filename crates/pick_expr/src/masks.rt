// Steps by one set of places for each byte, where no atom has a star.
ghost use Rattle.std.specs.Prelude.{◌≤◌, ◌∷◌, ℕ, List, length, IfOk, IfSome};
ghost use Rattle.pick_expr.specs.Finishing.{AreFinishing};
ghost use Rattle.pick_expr.specs.Masks.{AreMasks, AreMasksOf, IsMask};

use crate::Element;
use crate::matching::step;
use crate::places::Places;
use std::alloc::{AllocError, Global};

/// The places of the atoms that admit each byte, or nothing where some atom has a star; and the place
/// behind all elements, if the piece need not reach the line's end.
#[derive(Drop)]
pub(crate) struct Masks {
    by_byte: Vec<Places>,
    end: Places,
}

/// The places of the atoms that admit this byte.
fn mask(elements: &[Element], byte: u8) -> Option<Places>
    requires { length elements.now ≤ 127 }
    ensures { IfSome result (λ m. IsMask elements.now byte m) }
{
    let mut at = elements.len();
    let mut mask = Places::none();
    while at > 0 {
        at -= 1;
        match &elements[at] {
            Element::Once(atom) => mask = mask.with_if(at, atom.admits(byte)),
            Element::AnyNumber(_) => return None,
        }
    }
    Some(mask)
}

fn all_masks(alloc: Global, elements: &[Element]) -> Result<Vec<Places>, AllocError>
    requires { length elements.now ≤ 127 }
    ensures { IfOk result (λ ms. AreMasks elements.now ms.items) }
{
    let mut masks = Vec::new(alloc);
    for byte in 0u16..256 {
        match mask(elements, byte as u8) {
            Some(mask) => masks.push(mask)?,
            None => return Ok(Vec::new(alloc)),
        }
    }
    Ok(masks)
}

impl Masks {
    pub fn of(alloc: Global, elements: &[Element], to_end: bool) -> Result<Masks, AllocError>
        requires { length elements.now ≤ 127 }
        ensures { IfOk result (λ m. AreMasksOf elements.now to_end m) }
    {
        Ok(Masks {
            by_byte: all_masks(alloc, elements)?,
            end: Places::none().with_if(elements.len(), !to_end),
        })
    }

    /// The places one byte before.
    pub fn step(&self, elements: &[Element], to_end: bool, places: Places, byte: u8) -> Places
        requires few { length elements.now ≤ 127 }
        requires masks { AreMasksOf elements.now to_end self.now }
        ensures { (rest : List ℕ) → AreFinishing elements.now to_end rest places
            → AreFinishing elements.now to_end (byte ∷ rest) result }
    {
        let byte_at = byte as usize;
        if byte_at < self.by_byte.len() {
            places.less_one().and(self.by_byte[byte_at]).or(self.end)
        } else {
            step(elements, to_end, places, byte)
        }
    }
}
