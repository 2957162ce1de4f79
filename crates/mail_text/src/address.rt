// What an address shows.
ghost use Rattle.std.specs.Prelude.{◌≡◌, ◌++◌, IfOk};
ghost use Rattle.mail_text.specs.Marks.{marks as all_marks};

use crate::characters::{characters, is_empty, put, text_of};
use crate::marks::{Mark, marks};
use crate::parts::{address, cut, first_address, note, pers};
use mh_base::{Duplicate, Text};
use std::alloc::{AllocError, Global};

/// The parts of an address (RFC 5322, section 3.4): a name, what stands before the last @ and behind it, and the first
/// comment.
#[derive(Drop)]
pub struct Shown {
    pub pers: Text,
    pub mbox: Text,
    pub host: Text,
    pub note: Text,
}

/// The marks of a text, whose own characters are let go.
fn marks_of(alloc: Global, value: &Text) -> Result<Vec<Mark>, AllocError>
    ensures { IfOk result (λ ms. ms.items ≡ all_marks value.now) }
{
    let characters = characters(alloc, value)?;
    marks(alloc, characters.as_slice())
}

impl Shown {
    ghost use Rattle.mail_text.specs.AddressParts.{Shows, ShowsNoOther};
    ghost use Rattle.mail_text.specs.ShownAddress.{shown_address, addr_text, friendly_text};

    /// The parts of the first address of a field's value.
    pub fn of_address(alloc: Global, value: &Text) -> Result<Shown, AllocError>
        ensures pieces { IfOk result (λ shown. Shows value.now shown) }
        ensures alone { IfOk result (λ shown. ShowsNoOther value.now shown) }
        ensures value { IfOk result (λ shown. shown ≡ shown_address value.now) }
    {
        let marks = marks_of(alloc, value)?;
        let first = first_address(marks.as_slice());
        let address = address(alloc, first)?;
        let (mbox, host) = cut(address.as_slice());
        Ok(Shown {
            pers: pers(alloc, first)?,
            mbox: text_of(alloc, mbox)?,
            host: text_of(alloc, host)?,
            note: note(alloc, first)?,
        })
    }

    /// The name; where it is empty the comment; where both are empty the address.
    pub fn friendly(&self, alloc: Global) -> Result<Text, AllocError>
        ensures { IfOk result (λ text. text ≡ friendly_text self.now) }
    {
        if !is_empty(&self.pers) {
            self.pers.duplicate(alloc)
        } else if !is_empty(&self.note) {
            self.note.duplicate(alloc)
        } else {
            self.addr(alloc)
        }
    }

    /// The address: mbox@host, or mbox alone where there is no host.
    pub fn addr(&self, alloc: Global) -> Result<Text, AllocError>
        ensures { IfOk result (λ text. text ≡ addr_text self.now) }
    {
        let mut text = self.mbox.duplicate(alloc)?;
        if !is_empty(&self.host) {
            text.push('@')?;
            put(&mut text, characters(alloc, &self.host)?.as_slice())?;
        }
        Ok(text)
    }
}
