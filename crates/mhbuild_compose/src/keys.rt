// The keys of boundaries.
ghost use Rattle.std.specs.Prelude.{◌≡◌, ◌≤◌, ◌<◌, ◌+◌, ◌||◌, ℕ, List, take, length, IfOk, OnOk, bytes_eq, MatchOption, None, Some, ◌-◌};
ghost use Rattle.std.specs.List.{list_any};
ghost use Rattle.mh_base.specs.Numbers.{hex};
ghost use Rattle.mime_tree.specs.BoundaryLines.{lines, behind_front};
ghost use Rattle.mhbuild_compose.specs.KeySets.{has_digits};
ghost use Rattle.mhbuild_compose.specs.Keys.{AreKeys, IsLeastFree, begins_in, is_begin, node_takes, takes, takes_any, hyphened};

use crate::boundaries::{put_hex, put_mark};
use crate::node::Node;
use mh_base::Bytes;
use mime_tree::line_len;
use std::alloc::{AllocError, Global};
use std::collections::BTreeSet;

/// The digits behind the marks with which lines begin.
#[derive(Drop)]
pub(crate) struct Keys {
    digits: BTreeSet<Vec<u8>>,
}

fn front(text: &[u8], len: usize) -> &[u8]
    ensures { result.now ≡ take len text.now }
{
    let (front, _) = text.split_at(len.min(text.len()));
    front
}

/// Two hyphens and what boundaries begin with.
fn line_mark(alloc: Global, run: u128) -> Result<Bytes, AllocError>
    ensures { IfOk result (λ b. b ≡ hyphened run) }
{
    let mut mark = Bytes::from_slice(alloc, b"--")?;
    put_mark(&mut mark, run)?;
    Ok(mark)
}

fn behind_mark<'a>(line: &'a [u8], mark: &[u8]) -> Option<&'a [u8]>
    ensures { MatchOption result (behind_front mark.now line.now ≡ None)
        (λ rest. behind_front mark.now line.now ≡ Some rest.now) }
{
    line.strip_prefix(mark)
}

impl Keys {
    fn insert(&mut self, alloc: Global, digits: &[u8]) -> Result<(), AllocError>
        ensures { OnOk result ((d : List ℕ) → has_digits self.new d ≡ has_digits self.old d || bytes_eq d digits.now) }
    {
        self.digits.insert(digits.to_vec(alloc)?)?;
        Ok(())
    }

    fn has(&self, digits: &[u8]) -> bool
        ensures { result ≡ has_digits self.now digits.now }
    {
        self.digits.contains(digits)
    }

    fn add_line(&mut self, alloc: Global, mark: &[u8], line: &[u8]) -> Result<(), AllocError>
        ensures { OnOk result
            ((d : List ℕ) → has_digits self.new d ≡ has_digits self.old d || takes mark.now d line.now) }
    {
        match behind_mark(line, mark) {
            Some(rest) => self.insert(alloc, front(rest, 16)),
            None => Ok(()),
        }
    }

    fn add_text(&mut self, alloc: Global, mark: &[u8], text: &[u8]) -> Result<(), AllocError>
        ensures { OnOk result
            ((d : List ℕ)
            → has_digits self.new d ≡ has_digits self.old d || list_any (takes mark.now d) (lines text.now)) }
    {
        let mut rest = text;
        while !rest.is_empty() {
            let (line, behind) = rest.split_at(line_len(rest));
            self.add_line(alloc, mark, line)?;
            rest = behind;
        }
        Ok(())
    }

    fn add_node(&mut self, alloc: Global, mark: &[u8], node: &Node) -> Result<(), AllocError>
        ensures { OnOk result
            ((d : List ℕ) → has_digits self.new d ≡ has_digits self.old d || node_takes mark.now d node.now) }
    {
        match node {
            Node::Leaf(piece) => self.add_text(alloc, mark, piece.body.as_slice()),
            _ => Ok(()),
        }
    }

    /// The keys of which lines of these nodes begin with the boundary.
    fn of(alloc: Global, mark: &[u8], nodes: &[Node]) -> Result<Keys, AllocError>
        ensures { IfOk result (λ keys. (d : List ℕ) → has_digits keys d ≡ list_any (node_takes mark.now d) nodes.now) }
    {
        let mut keys = Keys {
            digits: BTreeSet::new(alloc),
        };
        for node in nodes {
            keys.add_node(alloc, mark, node)?;
        }
        Ok(keys)
    }

    fn has_key(&self, alloc: Global, key: u64) -> Result<bool, AllocError>
        ensures { IfOk result (λ has. has ≡ has_digits self.now (hex 16 key)) }
    {
        let mut digits = Bytes::new(alloc);
        put_hex(&mut digits, 16, key as u128)?;
        Ok(self.has(digits.as_slice()))
    }

    /// The least key from here on that no line takes. All keys are never taken: there aren't so many lines.
    fn least_free(&self, alloc: Global, from: u64) -> Result<u64, AllocError>
        ensures free { IfOk result (λ key. IsLeastFree (λ k. has_digits self.now (hex 16 k)) from key) }
        ensures inside { IfOk result (λ key. key < 18446744073709551615) }
    {
        for key in from..u64::MAX {
            if !self.has_key(alloc, key)? {
                return Ok(key);
            }
        }
        Err(AllocError)
    }
}

/// One where a multipart begins; else none.
fn begin_of(node: &Node) -> usize
    ensures value { result ≡ is_begin node.now }
    ensures inside { result ≤ 1 }
{
    match node {
        Node::Begin(_) => 1,
        _ => 0,
    }
}

fn begin_count(nodes: &[Node]) -> usize
    ensures { result ≡ begins_in nodes.now }
{
    let mut count = 0;
    for node in nodes {
        count += begin_of(node);
    }
    count
}

/// The keys of the multiparts, in order: each the least above the one before that no line takes.
pub(crate) fn choose_keys(alloc: Global, run: u128, nodes: &[Node]) -> Result<Vec<u64>, AllocError>
    ensures keys { IfOk result (λ keys. AreKeys (takes_any run nodes.now) 0 keys.items) }
    ensures count { IfOk result (λ keys. length keys.items ≡ begins_in nodes.now) }
{
    let mark = line_mark(alloc, run)?;
    let taken = Keys::of(alloc, mark.as_slice(), nodes)?;
    let count = begin_count(nodes);
    let mut keys = Vec::new(alloc);
    let mut from = 0;
    for i in 0..count {
        let key = taken.least_free(alloc, from)?;
        keys.push(key)?;
        from = key + 1;
    }
    Ok(keys)
}
