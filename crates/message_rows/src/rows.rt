// Which call a row makes.
use crate::{codes, dates, drafts, drops, formats, lines, mime, order, parts, texts};
use mh_base::Bytes;
use row_text::{Calls, word};
use std::alloc::Global;
use std::test::Fail;

fn call_of(alloc: Global, row: &[Bytes], told: &mut Bytes) -> Result<(), Fail> {
    match word(row, 0)? {
        b"=" => Ok(()),
        b"codes" => codes::call(alloc, row, told),
        b"dates" => dates::call(alloc, row, told),
        b"texts" => texts::call(alloc, row, told),
        b"drops" => drops::call(alloc, row, told),
        b"mime" => mime::call(alloc, row, told),
        b"parts" => parts::call(alloc, row, told),
        b"drafts" => drafts::call(alloc, row, told),
        b"formats" => formats::call(alloc, row, told),
        b"order" => order::call(alloc, row, told),
        _ => Err("a call".into()),
    }
}

/// The words of the message that lines of formats look at.
#[derive(Drop)]
pub(crate) struct MessageCalls {
    view: Vec<Bytes>,
}

impl MessageCalls {
    pub(crate) fn new(alloc: Global) -> MessageCalls {
        MessageCalls {
            view: Vec::new(alloc),
        }
    }
}

impl Calls for MessageCalls {
    fn call(&mut self, alloc: Global, row: Vec<Bytes>, told: &mut Bytes) -> Result<(), Fail> {
        match word(&row, 0)? {
            b"view" => {
                self.view = row;
                Ok(())
            }
            b"line" => lines::call(alloc, &self.view, &row, told),
            _ => call_of(alloc, &row, told),
        }
    }
}
