// The root of a message.
ghost use Rattle.std.specs.Prelude.{◌≡◌, ◌≤◌, ◌+◌, ◌^◌, ◌<◌, ◌==◌, ◌++◌, [], IfOk, OnOk};
ghost use Rattle.mhbuild_compose.specs.Roots.{depth_behind as depth_behind_item, is_top as is_top_item, tops as tops_of, root_front, root_back, all_nodes};

use crate::Given;
use crate::labels::text_label;
use crate::node::Node;
use crate::nodes::{Nodes, push_file};
use mh_drafts::{Item, Kind};
use std::alloc::{AllocError, Global};

/// How many multiparts are open behind an item.
fn depth_behind(depth: u64, item: &Item) -> u64
    requires { depth + 1 < 2 ^ 64 }
    ensures value { result ≡ depth_behind_item depth item.now }
    ensures inside { result ≤ depth + 1 }
{
    match item {
        Item::Leaf(_) => depth,
        Item::Begin(_) => depth + 1,
        Item::End => depth.saturating_sub(1),
    }
}

/// One where a part begins that is in no other; else none.
fn is_top(depth: u64, item: &Item) -> u64
    ensures value { result ≡ is_top_item depth item.now }
    ensures inside { result ≤ 1 }
{
    match item {
        Item::End => 0,
        _ => { if depth == 0 { 1 } else { 0 } }
    }
}

/// How many parts are in no other.
fn tops(items: &[Item]) -> u64
    ensures { result ≡ tops_of 0 items.now }
{
    let mut depth = 0;
    let mut count = 0;
    for item in items {
        count += is_top(depth, item);
        depth = depth_behind(depth, item);
    }
    count
}

fn push_front(alloc: Global, list: &mut Vec<Node>, count: u64) -> Result<(), AllocError>
    ensures { OnOk result (list.new.items ≡ list.old.items ++ root_front count) }
{
    match count {
        0 => {
            let label = text_label(alloc)?;
            push_file(alloc, list, &label, &[])
        }
        1 => Ok(()),
        _ => {
            list.push(Node::Begin(Kind::Mixed))?;
            Ok(())
        }
    }
}

fn push_back(list: &mut Vec<Node>, count: u64) -> Result<(), AllocError>
    ensures { OnOk result (list.new.items ≡ list.old.items ++ root_back count) }
{
    if count <= 1 {
        return Ok(());
    }
    list.push(Node::End)?;
    Ok(())
}

/// The nodes of a draft: several parts are those of a multipart, and where there is none, an empty text is.
pub(crate) fn nodes_of_draft(
    alloc: Global,
    items: &[Item],
    givens: &[Given],
) -> Result<Vec<Node>, AllocError>
    ensures { IfOk result (λ nodes. nodes.items ≡ all_nodes items.now givens.now) }
{
    let count = tops(items);
    let mut list = Vec::new(alloc);
    push_front(alloc, &mut list, count)?;
    let mut nodes = Nodes { list, givens };
    for item in items {
        nodes.add(alloc, item)?;
    }
    let Nodes { mut list, .. } = nodes;
    push_back(&mut list, count)?;
    Ok(list)
}
