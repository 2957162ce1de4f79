// A message with its parts.
ghost use Rattle.std.specs.Prelude.{◌≡◌, length, map, IfOk, MatchOption, None, Some};
ghost use Rattle.std.specs.List.{filter};
ghost use Rattle.part_rows.specs.Choices.{first_missing as first_missing_of, stored as stored_of};
ghost use Rattle.part_rows.specs.Chosen.{chooses};
ghost use Rattle.part_rows.specs.PartViews.{parts_of, view_of};
ghost use Rattle.part_rows.specs.Rows.{part_row as row_of_part, rows_of};

use crate::choices::Choice;
use crate::columns::line;
use crate::rows::part_columns;
use crate::spans::text_of;
use crate::walk::push_chosen;
use crate::wanted::Wanted;
use mh_base::{Bytes, BytesList, List, MsgNum};
use mime_tree::{Part, PartPath, Tree};
use std::alloc::{AllocError, Global};
use std::marker::Model;

/// A message with its parts, which contracts see as the message.
#[derive(Drop)]
pub struct MessageParts<'a> {
    bytes: &'a [u8],
    tree: Tree<'a>,
}

impl<'a> Model for MessageParts<'a> {
    ghost use Rattle.std.specs.Prelude.{◌≡◌, List, ℕ, []};
    ghost use Rattle.mime_tree.specs.Spans.{whole};
    ghost use Rattle.mime_tree.specs.Trees.{IsPart};
    ghost use Rattle.part_rows.specs.PartViews.{plain_text};

    ghost Value = { List ℕ };

    ghost view = { λ m. m.bytes.now };

    ghost invariant = { λ m. (m.tree.bytes.now ≡ m.bytes.now)
        × IsPart 64 m.bytes.now plain_text [] (whole m.bytes.now) m.tree.root };
}

impl<'a> MessageParts<'a> {
    /// Cuts a message into its parts. No bytes are refused.
    pub fn cut(alloc: Global, bytes: &'a [u8]) -> Result<MessageParts<'a>, AllocError>
        ensures { IfOk result (λ m. m ≡ bytes.now) }
    {
        let tree = Tree::cut(alloc, bytes)?;
        Ok(MessageParts { bytes, tree })
    }

    /// The first of the wanted paths that no part has.
    pub fn first_missing<'w>(&self, wanted: &'w [PartPath]) -> Option<&'w PartPath>
        ensures { MatchOption result (first_missing_of wanted.now (parts_of self.now) ≡ None)
            (λ path. first_missing_of wanted.now (parts_of self.now) ≡ Some path.now) }
    {
        for path in wanted {
            if self.tree.part(path).is_none() {
                return Some(path);
            }
        }
        None
    }

    fn chosen(&self, alloc: Global, choice: &Choice<'_>) -> Result<Vec<&Part>, AllocError>
        ensures { IfOk result
            (λ parts.
            map (λ p. view_of self.now p.now) parts.items ≡ filter (chooses choice.now) (parts_of self.now)) }
    {
        let mut parts = Vec::new(alloc);
        push_chosen(&mut parts, choice, self.tree.root())?;
        Ok(parts)
    }

    /// The parts that are stored where these paths are wanted, in the order of the tree: those that the paths name, or
    /// without a path the leaves.
    pub fn stored(&self, alloc: Global, wanted: &[PartPath]) -> Result<Vec<&Part>, AllocError>
        ensures { IfOk result
            (λ parts. map (λ p. view_of self.now p.now) parts.items ≡ stored_of wanted.now (parts_of self.now)) }
    {
        self.chosen(alloc, &Choice::Stored(Wanted::of(alloc, wanted)?))
    }

    /// The bytes that a part of this message carries.
    pub fn content(&self, alloc: Global, part: &Part) -> Result<Bytes, AllocError>
        ensures { IfOk result (λ b. b ≡ (view_of self.now part.now).content) }
    {
        self.tree.content(alloc, part)
    }

    /// How many bytes a part of this message carries. Only a leaf is decoded for that, and nothing else is copied.
    fn size(&self, alloc: Global, part: &Part) -> Result<usize, AllocError>
        ensures { IfOk result (λ n. n ≡ length (view_of self.now part.now).content) }
    {
        if part.kids.is_empty() {
            Ok(self.content(alloc, part)?.len())
        } else {
            Ok(text_of(self.bytes, part.body).len())
        }
    }

    fn row(&self, alloc: Global, number: MsgNum, part: &Part) -> Result<Bytes, AllocError>
        ensures { IfOk result (λ row. row ≡ row_of_part number (view_of self.now part.now)) }
    {
        let size = self.size(alloc, part)?;
        let columns = part_columns(alloc, number, self.bytes, part, size)?;
        line(alloc, &columns)
    }

    /// The rows of the message of this number, each with its line feed: of the parts that these paths name, or without
    /// a path of all, in the order of the tree.
    pub fn rows(
        &self,
        alloc: Global,
        number: MsgNum,
        wanted: &[PartPath],
    ) -> Result<BytesList, AllocError>
        ensures { IfOk result (λ rows. rows ≡ rows_of number wanted.now self.now) }
    {
        let parts = self.chosen(alloc, &Choice::Listed(Wanted::of(alloc, wanted)?))?;
        let mut rows = List::new(alloc);
        for part in &parts {
            rows.push(self.row(alloc, number, part)?)?;
        }
        Ok(rows)
    }
}
