// Messages composed.
ghost use Rattle.std.specs.Prelude.{◌≡◌, ◌++◌, [], IfOk, OnOk};
ghost use Rattle.mhbuild_compose.specs.Messages.{IsComposed, ended, opened};
ghost use Rattle.mhbuild_compose.specs.Written.{written};

use crate::GivenList;
use crate::eights::eight_flags;
use crate::keys::choose_keys;
use crate::node::Node;
use crate::root::nodes_of_draft;
use crate::stack::Stack;
use crate::writing::Writer;
use mh_base::Bytes;
use mh_drafts::Draft;
use std::alloc::{AllocError, Global};

/// The fields, with a line feed behind the last where it has none.
fn put_fields(out: &mut Bytes, fields: &[u8]) -> Result<(), AllocError>
    ensures { OnOk result (out.new ≡ out.old ++ ended fields.now) }
{
    out.extend(fields)?;
    match fields.last() {
        Some(byte) if *byte != b'\n' => out.extend(b"\n"),
        _ => Ok(()),
    }
}

/// What stands before the root.
fn open(alloc: Global, fields: &[u8]) -> Result<Bytes, AllocError>
    ensures { IfOk result (λ b. b ≡ opened fields.now) }
{
    let mut out = Bytes::new(alloc);
    put_fields(&mut out, fields)?;
    out.extend(b"MIME-Version: 1.0\n")?;
    Ok(out)
}

/// Writes all nodes.
fn write_nodes(
    alloc: Global,
    run: u128,
    out: Bytes,
    nodes: &[Node],
    flags: &[bool],
    keys: &[u64],
) -> Result<Bytes, AllocError>
    ensures { IfOk result (λ b. b ≡ out ++ written run [] flags.now keys.now nodes.now) }
{
    let mut writer = Writer {
        out,
        run,
        levels: Stack::new(alloc),
        flags,
        keys,
    };
    for node in nodes {
        writer.add(node)?;
    }
    let Writer { out, .. } = writer;
    Ok(out)
}

/// The message that a draft becomes with what is given for its wants, in their order.
pub fn compose(
    alloc: Global,
    draft: &Draft,
    givens: &GivenList,
    run: u128,
) -> Result<Bytes, AllocError>
    ensures { IfOk result (λ message. IsComposed draft.now.fields draft.now.items givens.now run message) }
{
    let nodes = nodes_of_draft(alloc, draft.items().as_slice(), givens.as_slice())?;
    let flags = eight_flags(alloc, nodes.as_slice())?;
    let keys = choose_keys(alloc, run, nodes.as_slice())?;
    let out = open(alloc, draft.fields().as_slice())?;
    write_nodes(
        alloc,
        run,
        out,
        nodes.as_slice(),
        flags.as_slice(),
        keys.as_slice(),
    )
}
