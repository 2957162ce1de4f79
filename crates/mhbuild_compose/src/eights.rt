// Which multiparts have bytes above 127 as they are.
ghost use Rattle.std.specs.Prelude.{◌≡◌, OnOk, IfOk, ◌||◌, List};
ghost use Rattle.mhbuild_compose.specs.Eights.{top as top_of, below as below_top, eights_with, flags_with, flags_of};

use crate::node::Node;
use crate::stack::Stack;
use mh_base::List;
use std::alloc::{AllocError, Global};

/// Takes what stands on top; where nothing does, no.
fn take_top(stack: &mut Stack<bool>) -> bool
    ensures top { result ≡ top_of stack.old }
    ensures below { stack.new ≡ below_top stack.old }
{
    match stack.pop() {
        Some(eight) => eight,
        None => false,
    }
}

fn either(one: bool, other: bool) -> bool
    ensures { result ≡ (one || other) }
{
    one || other
}

/// What is known behind a node: of each multipart that is open there, the innermost first, whether a part that is left
/// of it has such bytes; and of each that begins there, in order, whether one of its parts has.
#[derive(Drop)]
struct Passed {
    eights: Stack<bool>,
    flags: Stack<bool>,
}

impl Passed {
    /// One node more, before the others.
    fn add(&mut self, node: &Node) -> Result<(), AllocError>
        ensures eights { OnOk result (self.new.eights ≡ eights_with node.now self.old.eights) }
        ensures flags { OnOk result (self.new.flags ≡ flags_with node.now self.old.eights self.old.flags) }
    {
        match node {
            Node::Leaf(piece) => {
                let eight = either(piece.eight, take_top(&mut self.eights));
                self.eights.push(eight)
            }
            Node::Begin(_) => {
                let inner = take_top(&mut self.eights);
                let eight = either(inner, take_top(&mut self.eights));
                self.flags.push(inner)?;
                self.eights.push(eight)
            }
            Node::End => self.eights.push(false),
        }
    }
}

/// Of each multipart, in order, whether one of its parts has bytes above 127 as they are.
pub(crate) fn eight_flags(alloc: Global, nodes: &[Node]) -> Result<List<bool>, AllocError>
    ensures { IfOk result (λ flags. flags ≡ flags_of nodes.now) }
{
    let mut passed = Passed {
        eights: Stack::new(alloc),
        flags: Stack::new(alloc),
    };
    let mut place = nodes.len();
    while place > 0 {
        place -= 1;
        passed.add(&nodes[place])?;
    }
    let Passed { flags, .. } = passed;
    Ok(flags.into_list())
}
