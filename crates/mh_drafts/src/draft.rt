// Drafts.
ghost use Rattle.std.specs.Prelude.{◌≡◌, ◌≤◌, length, IfOk, IfErr, None};
ghost use Rattle.mail_headers.specs.Message.{body_of};
ghost use Rattle.mh_drafts.specs.Drafts.{first_wrong_line};
ghost use Rattle.mh_drafts.specs.Headers.{fields_in};
ghost use Rattle.mh_drafts.specs.Items.{items_of, wants_of};
ghost use Rattle.mh_drafts.specs.Marks.{marks_in};
ghost use Rattle.mh_drafts.specs.Outcomes.{IsRefused, HasParts, IsBodyOf, IsWrongBody};

use crate::gathering::{Gathering, gather};
use crate::header::{Header, before, line_at, walk_header};
use crate::sign::first_wrong;
use crate::{DraftFault, ItemList, WantList};
use mail_headers::Message;
use mh_base::Bytes;
use std::alloc::Global;
use std::marker::Model;

/// A draft that was read.
#[derive(Drop)]
pub struct Draft {
    fields: Bytes,
    items: ItemList,
    wants: WantList,
}

impl Model for Draft {
    ghost use Rattle.mh_drafts.specs.Drafted.{Drafted};

    ghost Value = { Drafted };

    ghost view = { λ d. record { fields = d.fields; items = d.items; wants = d.wants } };
}

/// The body, unless one of its lines is wrong.
fn read_body(alloc: Global, bytes: &[u8], body: &[u8]) -> Result<Gathering, DraftFault>
    requires { length body.now ≤ length bytes.now }
    ensures items { IfOk result (λ g. IsBodyOf body.now g.items g.wants) }
    ensures refused { IfErr result (IsWrongBody bytes.now body.now) }
{
    let gathering = gather(alloc, body)?;
    match first_wrong(gathering.signs.as_slice()) {
        Some(count) => Err(DraftFault::Bad(line_at(bytes, body) + count as u64)),
        None => Ok(gathering),
    }
}

impl Draft {
    /// Reads the tree that a draft denotes, or tells its first wrong line.
    pub fn read(alloc: Global, bytes: &[u8]) -> Result<Draft, DraftFault>
        ensures right { IfOk result (λ _. first_wrong_line bytes.now ≡ None) }
        ensures fields { IfOk result (λ d. d.fields ≡ fields_in bytes.now) }
        ensures items { IfOk result (λ d. d.items ≡ items_of (marks_in (body_of bytes.now))) }
        ensures wants { IfOk result (λ d. d.wants ≡ wants_of (marks_in (body_of bytes.now))) }
        ensures parts { IfOk result (λ d. HasParts d.items) }
        ensures refused { IfErr result (IsRefused bytes.now) }
    {
        let message = Message::cut(bytes);
        let behind = match walk_header(&message) {
            Header::Reserved(rest) => return Err(DraftFault::Bad(line_at(bytes, rest))),
            Header::Behind(rest) => rest,
        };
        let gathering = match read_body(alloc, bytes, message.body()) {
            Ok(gathering) => gathering,
            Err(fault) => return Err(fault),
        };
        let fields = Bytes::from_slice(alloc, before(bytes, behind))?;
        let Gathering { items, wants, .. } = gathering;
        Ok(Draft {
            fields,
            items,
            wants,
        })
    }

    /// The fields as they stand in the draft.
    pub fn fields(&self) -> &Bytes
        ensures { result.now ≡ self.now.fields }
    {
        &self.fields
    }

    /// The items that write the parts.
    pub fn items(&self) -> &ItemList
        ensures { result.now ≡ self.now.items }
    {
        &self.items
    }

    /// What the parts want, in their order.
    pub fn wants(&self) -> &WantList
        ensures { result.now ≡ self.now.wants }
    {
        &self.wants
    }
}
