// A message written, node by node.
ghost use Rattle.std.specs.Prelude.{◌≡◌, ◌++◌, ◌∷◌, [], OnOk, IfOk};
ghost use Rattle.mhbuild_compose.specs.declared.node.Node.TheVariants.{Leaf as leaf_node, Begin as begin_node, End as end_node};
ghost use Rattle.mhbuild_compose.specs.Written.{closing_of, encoding_with, first_flag, first_key, flags_behind, flags_left, inner as inner_of, keys_behind, keys_left, kind_text, lead_by, leaf_text, levels_behind, levels_left, line_of, multipart_head, multipart_type, node_text, trail_by};

use crate::boundaries::put_boundary;
use crate::encoding::Encoding;
use crate::head::put_encoding;
use crate::node::{Node, Piece};
use crate::stack::Stack;
use mh_base::Bytes;
use mh_drafts::Kind;
use std::alloc::AllocError;

/// A message that is written: the text so far, the keys of the multiparts that are open, the innermost on top, and what
/// is known of those that are to begin: whether one of their parts has bytes above 127 as they are, and their keys.
#[derive(Drop)]
pub(crate) struct Writer<'a> {
    pub(crate) out: Bytes,
    pub(crate) run: u128,
    pub(crate) levels: Stack<u64>,
    pub(crate) flags: &'a [bool],
    pub(crate) keys: &'a [u64],
}

fn kind_word(kind: Kind) -> &'static [u8]
    ensures { result.now ≡ kind_text kind }
{
    match kind {
        Kind::Mixed => b"mixed",
        Kind::Alternative => b"alternative",
        Kind::Parallel => b"parallel",
        Kind::Digest => b"digest",
    }
}

fn encoding_by(eight: bool) -> Encoding
    ensures { result ≡ encoding_with eight }
{
    if eight {
        Encoding::EightBit
    } else {
        Encoding::SevenBit
    }
}

/// The line that names a multipart's type.
#[tactic(auto, unfolding(crate::specs::Written::multipart_type))]
fn put_multipart_type(out: &mut Bytes, run: u128, kind: Kind, key: u64) -> Result<(), AllocError>
    ensures { OnOk result (out.new ≡ out.old ++ multipart_type run kind key) }
{
    out.extend(b"Content-Type: multipart/")?;
    out.extend(kind_word(kind))?;
    out.extend(b"; boundary=\"")?;
    put_boundary(out, run, key)?;
    out.extend(b"\"\n")
}

/// The header lines of a multipart, and the empty line behind them.
fn put_multipart(
    out: &mut Bytes,
    run: u128,
    kind: Kind,
    eight: bool,
    key: u64,
) -> Result<(), AllocError>
    ensures { OnOk result (out.new ≡ out.old ++ multipart_head run kind eight key) }
{
    put_multipart_type(out, run, kind, key)?;
    put_encoding(out, encoding_by(eight))?;
    out.extend(b"\n")
}

/// The line before a part of the multipart with this key.
fn put_line(out: &mut Bytes, run: u128, key: u64) -> Result<(), AllocError>
    ensures { OnOk result (out.new ≡ out.old ++ line_of run key) }
{
    out.extend(b"--")?;
    put_boundary(out, run, key)?;
    out.extend(b"\n")
}

/// The line behind the last part of the multipart with this key.
fn put_closing(out: &mut Bytes, run: u128, key: u64) -> Result<(), AllocError>
    ensures { OnOk result (out.new ≡ out.old ++ closing_of run key) }
{
    out.extend(b"--")?;
    put_boundary(out, run, key)?;
    out.extend(b"--\n")
}

/// A part without parts.
fn put_leaf(out: &mut Bytes, piece: &Piece) -> Result<(), AllocError>
    ensures { OnOk result (out.new ≡ out.old ++ leaf_text piece.now) }
{
    out.extend(piece.head.as_slice())?;
    out.extend(b"\n")?;
    out.extend(piece.body.as_slice())
}

/// The line before a part of the innermost multipart.
fn put_lead(out: &mut Bytes, run: u128, inner: Option<u64>) -> Result<(), AllocError>
    ensures { OnOk result (out.new ≡ out.old ++ lead_by run inner) }
{
    match inner {
        Some(key) => put_line(out, run, key),
        None => out.extend(b""),
    }
}

/// The line end behind a part of a multipart.
fn put_trail(out: &mut Bytes, inner: Option<u64>) -> Result<(), AllocError>
    ensures { OnOk result (out.new ≡ out.old ++ trail_by inner) }
{
    match inner {
        Some(_) => out.extend(b"\n"),
        None => out.extend(b""),
    }
}

fn flag_first(flags: &[bool]) -> bool
    ensures { result ≡ first_flag flags.now }
{
    match flags.first() {
        Some(flag) => *flag,
        None => false,
    }
}

fn flags_rest(flags: &[bool]) -> &[bool]
    ensures { result.now ≡ flags_left flags.now }
{
    match flags.split_first() {
        Some((_, rest)) => rest,
        None => &[],
    }
}

fn key_first(keys: &[u64]) -> u64
    ensures { result ≡ first_key keys.now }
{
    match keys.first() {
        Some(key) => *key,
        None => 0,
    }
}

fn keys_rest(keys: &[u64]) -> &[u64]
    ensures { result.now ≡ keys_left keys.now }
{
    match keys.split_first() {
        Some((_, rest)) => rest,
        None => &[],
    }
}

impl<'a> Writer<'a> {
    /// The key of the innermost multipart that is open.
    fn inner(&mut self) -> Result<Option<u64>, AllocError>
        ensures value { IfOk result (λ key. key ≡ inner_of self.old.levels) }
        ensures out { OnOk result (self.new ≡ self.old) }
    {
        match self.levels.pop() {
            Some(key) => {
                self.levels.push(key)?;
                Ok(Some(key))
            }
            None => Ok(None),
        }
    }

    fn add_leaf(&mut self, piece: &Piece) -> Result<(), AllocError>
        ensures out { OnOk result
            (self.new.out ≡ self.old.out
            ++ node_text self.old.run self.old.levels self.old.flags.now self.old.keys.now (leaf_node piece.now)) }
        ensures run { OnOk result (self.new.run ≡ self.old.run) }
        ensures levels { OnOk result (self.new.levels ≡ self.old.levels) }
        ensures flags { OnOk result (self.new.flags ≡ self.old.flags) }
        ensures keys { OnOk result (self.new.keys ≡ self.old.keys) }
    {
        let inner = self.inner()?;
        put_lead(&mut self.out, self.run, inner)?;
        put_leaf(&mut self.out, piece)?;
        put_trail(&mut self.out, inner)
    }

    fn begin(&mut self, kind: Kind) -> Result<(), AllocError>
        ensures out { OnOk result
            (self.new.out ≡ self.old.out
            ++ node_text self.old.run self.old.levels self.old.flags.now self.old.keys.now (begin_node kind)) }
        ensures run { OnOk result (self.new.run ≡ self.old.run) }
        ensures levels { OnOk result (self.new.levels ≡ first_key self.old.keys.now ∷ self.old.levels) }
        ensures flags { OnOk result (self.new.flags.now ≡ flags_left self.old.flags.now) }
        ensures keys { OnOk result (self.new.keys.now ≡ keys_left self.old.keys.now) }
    {
        let inner = self.inner()?;
        let key = key_first(self.keys);
        let eight = flag_first(self.flags);
        put_lead(&mut self.out, self.run, inner)?;
        put_multipart(&mut self.out, self.run, kind, eight, key)?;
        self.flags = flags_rest(self.flags);
        self.keys = keys_rest(self.keys);
        self.levels.push(key)
    }

    fn end(&mut self) -> Result<(), AllocError>
        ensures out { OnOk result
            (self.new.out ≡ self.old.out
            ++ node_text self.old.run self.old.levels self.old.flags.now self.old.keys.now end_node) }
        ensures run { OnOk result (self.new.run ≡ self.old.run) }
        ensures levels { OnOk result (self.new.levels ≡ levels_left self.old.levels) }
        ensures flags { OnOk result (self.new.flags ≡ self.old.flags) }
        ensures keys { OnOk result (self.new.keys ≡ self.old.keys) }
    {
        match self.levels.pop() {
            Some(key) => {
                let inner = self.inner()?;
                put_closing(&mut self.out, self.run, key)?;
                put_trail(&mut self.out, inner)
            }
            None => self.out.extend(b""),
        }
    }

    /// One node more.
    pub(crate) fn add(&mut self, node: &Node) -> Result<(), AllocError>
        ensures out { OnOk result
            (self.new.out ≡ self.old.out
            ++ node_text self.old.run self.old.levels self.old.flags.now self.old.keys.now node.now) }
        ensures run { OnOk result (self.new.run ≡ self.old.run) }
        ensures levels { OnOk result (self.new.levels ≡ levels_behind self.old.levels self.old.keys.now node.now) }
        ensures flags { OnOk result (self.new.flags.now ≡ flags_behind self.old.flags.now node.now) }
        ensures keys { OnOk result (self.new.keys.now ≡ keys_behind self.old.keys.now node.now) }
    {
        match node {
            Node::Leaf(piece) => self.add_leaf(piece),
            Node::Begin(kind) => self.begin(*kind),
            Node::End => self.end(),
        }
    }
}
