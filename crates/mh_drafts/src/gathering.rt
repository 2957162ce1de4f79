// The lines of a draft's body, one behind the other.
ghost use Rattle.std.specs.Prelude.{◌≡◌, ◌≤◌, ◌+◌, ◌^◌, ◌<◌, ◌++◌, ◌∷◌, [], false, ◌||◌, length, IfOk, OnOk, List};
ghost use Rattle.mh_drafts.specs.Gatherings.{completed};
ghost use Rattle.mh_drafts.specs.Items.{texted, whole_of, item_before, want_before};
ghost use Rattle.mh_drafts.specs.Marks.{Mark, plain as text_mark, order as order_mark, marks_in, mark_of, placed, open_after, open_behind as open_behind_directive};

use crate::directive::Directive;
use crate::line::{Line, read_directive, settled};
use crate::sign::{Sign, is_said};
use crate::{Item, ItemList, Leaf, WantList};
use mh_base::{Bytes, List};
use mime_tree::line_len;
use std::alloc::{AllocError, Global};
use std::mem;

/// What the lines so far say: the text behind the last directive, whether one of its lines isn't empty, how many
/// multiparts are open, and all that stands before that text.
#[derive(Drop)]
pub(crate) struct Gathering {
    text: Bytes,
    said: bool,
    depth: u64,
    pub(crate) items: ItemList,
    pub(crate) wants: WantList,
    pub(crate) signs: List<Sign>,
}

impl Gathering {
    fn new(alloc: Global) -> Gathering
        ensures depth { result.depth ≡ 0 }
        ensures signs { result.signs ≡ [] }
        ensures whole { (marks : List Mark) → completed result marks ≡ whole_of marks }
    {
        Gathering {
            text: Bytes::new(alloc),
            said: false,
            depth: 0,
            items: List::new(alloc),
            wants: List::new(alloc),
            signs: List::new(alloc),
        }
    }

    fn add_text(&mut self, line: &[u8]) -> Result<(), AllocError>
        ensures depth { OnOk result (self.new.depth ≡ self.old.depth) }
        ensures signs { OnOk result (length self.new.signs ≡ length self.old.signs + 1) }
        ensures whole { OnOk result
            ((marks : List Mark) → completed self.new marks ≡ completed self.old (text_mark line.now ∷ marks)) }
    {
        let said = is_said(line);
        self.text.extend(line)?;
        self.said = either(self.said, said);
        self.signs.push(Sign::of_text(said))
    }

    /// Makes the text so far a part, where one of its lines isn't empty.
    fn end_text(&mut self, alloc: Global) -> Result<(), AllocError>
        ensures text { OnOk result (self.new.text ≡ []) }
        ensures said { OnOk result (self.new.said ≡ false) }
        ensures depth { OnOk result (self.new.depth ≡ self.old.depth) }
        ensures items { OnOk result (self.new.items ≡ self.old.items ++ texted self.old.text self.old.said []) }
        ensures wants { OnOk result (self.new.wants ≡ self.old.wants) }
        ensures signs { OnOk result (self.new.signs ≡ self.old.signs) }
    {
        let text = mem::replace(&mut self.text, Bytes::new(alloc));
        if self.said {
            self.said = false;
            self.items.push(Item::Leaf(Leaf::Text(text)))?;
        }
        Ok(())
    }

    fn push_directive(&mut self, directive: Directive) -> Result<(), AllocError>
        ensures text { OnOk result (self.new.text ≡ self.old.text) }
        ensures said { OnOk result (self.new.said ≡ self.old.said) }
        ensures depth { OnOk result (self.new.depth ≡ self.old.depth) }
        ensures items { OnOk result (self.new.items ≡ self.old.items ++ item_before directive []) }
        ensures wants { OnOk result (self.new.wants ≡ self.old.wants ++ want_before directive []) }
        ensures signs { OnOk result (self.new.signs ≡ self.old.signs) }
    {
        match directive {
            Directive::Begin(kind) => self.items.push(Item::Begin(kind)),
            Directive::End => self.items.push(Item::End),
            Directive::Part(leaf, want) => {
                self.items.push(Item::Leaf(leaf))?;
                self.wants.push(want)
            }
            Directive::Wrong => Ok(()),
        }
    }

    fn add_directive(&mut self, alloc: Global, directive: Directive) -> Result<(), AllocError>
        requires { self.old.depth + 1 < 2 ^ 64 }
        ensures depth { OnOk result (self.new.depth ≡ open_behind_directive self.old.depth directive) }
        ensures signs { OnOk result (length self.new.signs ≡ length self.old.signs + 1) }
        ensures whole { OnOk result
            ((marks : List Mark) → completed self.new marks ≡ completed self.old (order_mark directive ∷ marks)) }
    {
        self.end_text(alloc)?;
        self.signs.push(Sign::of(&directive))?;
        self.depth = open_behind(self.depth, &directive);
        self.push_directive(directive)
    }

    /// One line more.
    fn add(&mut self, alloc: Global, line: &[u8]) -> Result<(), AllocError>
        requires { self.old.depth + 1 < 2 ^ 64 }
        ensures depth { OnOk result
            (self.new.depth ≡ open_after self.old.depth (placed self.old.depth (mark_of line.now))) }
        ensures signs { OnOk result (length self.new.signs ≡ length self.old.signs + 1) }
        ensures whole { OnOk result
            ((marks : List Mark)
            → completed self.new marks ≡ completed self.old (placed self.old.depth (mark_of line.now) ∷ marks)) }
    {
        match Line::of(line) {
            Line::Text(line) => self.add_text(line),
            Line::Order(rest) => {
                let directive = settled(self.depth, read_directive(alloc, rest)?);
                self.add_directive(alloc, directive)
            }
        }
    }
}

fn either(one: bool, other: bool) -> bool
    ensures { result ≡ (one || other) }
{
    one || other
}

/// How many multiparts are open behind a directive.
fn open_behind(depth: u64, directive: &Directive) -> u64
    requires { depth + 1 < 2 ^ 64 }
    ensures { result ≡ open_behind_directive depth directive.now }
{
    match directive {
        Directive::Begin(_) => depth + 1,
        Directive::End => depth.saturating_sub(1),
        _ => depth,
    }
}

/// All that the lines of a body say.
pub(crate) fn gather(alloc: Global, body: &[u8]) -> Result<Gathering, AllocError>
    ensures whole { IfOk result
        (λ g. record { items = g.items; wants = g.wants; signs = g.signs } ≡ whole_of (marks_in body.now)) }
    ensures inside { IfOk result (λ g. length g.signs ≤ length body.now) }
{
    let mut gathering = Gathering::new(alloc);
    let mut rest = body;
    while !rest.is_empty() {
        let (line, behind) = rest.split_at(line_len(rest));
        gathering.add(alloc, line)?;
        rest = behind;
    }
    gathering.end_text(alloc)?;
    Ok(gathering)
}
