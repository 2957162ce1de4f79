// The nodes of a draft with what is given.
ghost use Rattle.std.specs.Prelude.{◌≡◌, ◌++◌, ◌∷◌, [], List, map, OnOk, None, Some};
ghost use Rattle.mh_drafts.specs.declared.item.Item.{Item as ItemValue};
ghost use Rattle.mhbuild_compose.specs.declared.node.Node.TheVariants.{Leaf as leaf_node};
ghost use Rattle.mh_drafts.specs.declared.item.Item.TheVariants.{Leaf as leaf_item};
ghost use Rattle.mhbuild_compose.specs.Pieces.{piece_of as piece_by};
ghost use Rattle.mhbuild_compose.specs.Nodes.{nodes_of, file_in, messages_in, message_nodes, message_leaf, behind_given};

use crate::Given;
use crate::labels::{message_label, text_label};
use crate::node::Node;
use crate::piece::make_piece;
use mh_base::Bytes;
use mh_drafts::{Item, Kind, Label, Leaf};
use std::alloc::{AllocError, Global};

/// The nodes so far, and what is given for the items that are left.
#[derive(Drop)]
pub(crate) struct Nodes<'a> {
    pub(crate) list: Vec<Node>,
    pub(crate) givens: &'a [Given],
}

/// The file that is given first.
fn file_given(givens: &[Given]) -> &[u8]
    ensures { result.now ≡ file_in givens.now }
{
    match givens.first() {
        Some(Given::File(bytes)) => bytes.as_slice(),
        _ => &[],
    }
}

/// The messages that are given first.
fn messages_given(givens: &[Given]) -> &[Bytes]
    ensures { result.now ≡ messages_in givens.now }
{
    match givens.first() {
        Some(Given::Messages(messages)) => messages.as_slice(),
        _ => &[],
    }
}

fn given_left(givens: &[Given]) -> &[Given]
    ensures { result.now ≡ behind_given givens.now }
{
    match givens.split_first() {
        Some((_, rest)) => rest,
        None => &[],
    }
}

fn push_message(alloc: Global, list: &mut Vec<Node>, message: &[u8]) -> Result<(), AllocError>
    ensures { OnOk result (list.new.items ≡ list.old.items ++ message_leaf message.now ∷ []) }
{
    let label = message_label(alloc)?;
    list.push(Node::Leaf(make_piece(alloc, &label, message)?))?;
    Ok(())
}

fn push_messages(alloc: Global, list: &mut Vec<Node>, messages: &[Bytes]) -> Result<(), AllocError>
    ensures { OnOk result (list.new.items ≡ list.old.items ++ map message_leaf messages.now) }
{
    for message in messages {
        push_message(alloc, list, message.as_slice())?;
    }
    Ok(())
}

/// One message, or a digest of several.
fn push_forward(alloc: Global, list: &mut Vec<Node>, messages: &[Bytes]) -> Result<(), AllocError>
    ensures { OnOk result (list.new.items ≡ list.old.items ++ message_nodes messages.now) }
{
    if messages.len() == 1 {
        return push_messages(alloc, list, messages);
    }
    list.push(Node::Begin(Kind::Digest))?;
    push_messages(alloc, list, messages)?;
    list.push(Node::End)?;
    Ok(())
}

pub(crate) fn push_file(
    alloc: Global,
    list: &mut Vec<Node>,
    label: &Label,
    text: &[u8],
) -> Result<(), AllocError>
    ensures { OnOk result (list.new.items ≡ list.old.items ++ leaf_node (piece_by label.now text.now) ∷ []) }
{
    list.push(Node::Leaf(make_piece(alloc, label, text)?))?;
    Ok(())
}

impl<'a> Nodes<'a> {
    fn add_leaf(&mut self, alloc: Global, leaf: &Leaf) -> Result<(), AllocError>
        ensures { OnOk result
            ((items : List ItemValue)
            → self.new.list.items ++ nodes_of items self.new.givens.now ≡ self.old.list.items
            ++ nodes_of (leaf_item leaf.now ∷ items) self.old.givens.now) }
    {
        match leaf {
            Leaf::Text(text) => {
                let label = text_label(alloc)?;
                push_file(alloc, &mut self.list, &label, text.as_slice())
            }
            Leaf::File(label) => {
                push_file(alloc, &mut self.list, label, file_given(self.givens))?;
                self.givens = given_left(self.givens);
                Ok(())
            }
            Leaf::Messages => {
                push_forward(alloc, &mut self.list, messages_given(self.givens))?;
                self.givens = given_left(self.givens);
                Ok(())
            }
        }
    }

    /// One item more.
    pub(crate) fn add(&mut self, alloc: Global, item: &Item) -> Result<(), AllocError>
        ensures { OnOk result
            ((items : List ItemValue)
            → self.new.list.items ++ nodes_of items self.new.givens.now ≡ self.old.list.items
            ++ nodes_of (item.now ∷ items) self.old.givens.now) }
    {
        match item {
            Item::Leaf(leaf) => self.add_leaf(alloc, leaf),
            Item::Begin(kind) => {
                self.list.push(Node::Begin(*kind))?;
                Ok(())
            }
            Item::End => {
                self.list.push(Node::End)?;
                Ok(())
            }
        }
    }
}
