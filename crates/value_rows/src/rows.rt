// Which call a row makes.
use crate::{numbers, plain_set, profile, ranges, sequences, words};
use mh_base::Bytes;
use row_text::{Calls, word};
use std::alloc::Global;
use std::test::Fail;

#[derive(Clone, Copy)]
pub(crate) struct ValueCalls;

impl Calls for ValueCalls {
    fn call(&mut self, alloc: Global, row: Vec<Bytes>, told: &mut Bytes) -> Result<(), Fail> {
        match word(&row, 0)? {
            b"=" => Ok(()),
            b"words" => words::call(alloc, &row, told),
            b"profile" => profile::call(alloc, &row, told),
            b"numbers" => numbers::call(alloc, &row, told),
            b"plain-set" => plain_set::call(alloc, &row, told),
            b"sequences" => sequences::call(alloc, &row, told),
            b"ranges" => ranges::call(alloc, &row, told),
            _ => Err("a call".into()),
        }
    }
}
