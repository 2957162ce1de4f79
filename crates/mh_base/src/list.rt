// One list for all kinds of items.
ghost use Rattle.std.specs.Prelude.{◌≡◌, ◌==◌, ◌<◌, ◌-◌, [], ◌∷◌, ◌++◌, length, take, IfOk, OnOk, OnErr, MatchOption, None, Some, slice_get, slice_set, slice_index_or};

use crate::{Bytes, Duplicate, Text};
use std::alloc::{AllocError, Global};
use std::marker::Model;

/// A list, which contracts see as the list of its items.
#[derive(Drop)]
pub struct List<T> {
    inner: Vec<T>,
}

pub type BytesList = List<Bytes>;

pub type NumberList = List<u64>;

pub type TextList = List<Text>;

impl<T> Model for List<T> {
    ghost use Rattle.std.specs.Prelude.{List};

    ghost Value = { List T };

    ghost view = { λ s. s.inner.items };
}

impl<T> List<T> {
    pub fn new(alloc: Global) -> Self
        ensures { result ≡ [] }
    {
        List {
            inner: Vec::new(alloc),
        }
    }

    pub fn from_vec(items: Vec<T>) -> Self
        ensures { result ≡ items.items }
    {
        List { inner: items }
    }

    pub fn into_vec(self) -> Vec<T>
        ensures { result.items ≡ self }
    {
        let List { inner } = self;
        inner
    }

    pub fn len(&self) -> usize
        ensures { result ≡ length self.now }
    {
        self.inner.len()
    }

    pub fn is_empty(&self) -> bool
        ensures { result ≡ (length self.now == 0) }
    {
        self.inner.is_empty()
    }

    pub fn get(&self, index: usize) -> Option<&T>
        ensures { MatchOption result (slice_get self.now index ≡ None) (λ x. slice_get self.now index ≡ Some x.now) }
    {
        self.inner.get(index)
    }

    pub fn as_slice(&self) -> &[T]
        ensures { result.now ≡ self.now }
    {
        self.inner.as_slice()
    }
}

impl<T> List<T> {
    ghost use Rattle.std.specs.Borrow.{Lends, sem};
    ghost use Rattle.mh_base.specs.contracts.list.List.{the_row};

    pub fn get_mut(&mut self, index: usize) -> &mut T
        requires { index < length self.old }
        ensures* lends { sem 𝓛 (Lends (the_row T.row) T.row self.entry result (slice_set self.old index)) }
        ensures value { result.now ≡ slice_index_or self.old index result.now }
    {
        &mut self.inner[index]
    }
}

impl<T: Drop> List<T> {
    pub fn push(&mut self, item: T) -> Result<(), AllocError>
        ensures ok { OnOk result (self.new ≡ self.old ++ item ∷ []) }
        ensures err { OnErr result (self.new ≡ self.old) }
    {
        self.inner.push(item)?;
        Ok(())
    }

    /// Drops the last item, where there is one.
    pub fn pop(&mut self)
        ensures { self.new ≡ take (length self.old - 1) self.old }
    {
        let _ = self.inner.pop();
    }
}

impl<T: Duplicate> Duplicate for List<T> {
    fn duplicate(&self, alloc: Global) -> Result<List<T>, AllocError> {
        let mut copied = List::new(alloc);
        for item in self.as_slice() {
            copied.push(item.duplicate(alloc)?)?;
        }
        Ok(copied)
    }
}
