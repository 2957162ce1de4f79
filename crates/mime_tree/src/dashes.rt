// Lines that begin with two hyphens.
ghost use Rattle.std.specs.Prelude.{◌≡◌, ◌++◌, ◌∷◌, ◌≤◌, [], nat_lt, length, OnOk, IfOk, if◌then◌else◌};
ghost use Rattle.std.specs.List.{prefix_len};
ghost use Rattle.mime_tree.specs.BoundaryLines.{lines};
ghost use Rattle.mime_tree.specs.DashLines.{is_dashed, IsPlain, Marks, marks_from};

use crate::mark::line_len;
use std::alloc::{AllocError, Global};

/// Adds the place of a line that begins with two hyphens.
fn put_place(marks: &mut Vec<u64>, line: &[u8], place: u64) -> Result<(), AllocError>
    ensures { OnOk result
        (marks.new.items ≡ (if is_dashed line.now then marks.old.items ++ place ∷ [] else marks.old.items)) }
{
    if line.strip_prefix(b"--").is_some() {
        marks.push(place)?;
    }
    Ok(())
}

/// The places of all lines that begin with two hyphens.
pub(crate) fn dash_places(alloc: Global, bytes: &[u8]) -> Result<Vec<u64>, AllocError>
    ensures { IfOk result (λ m. Marks IsPlain 0 (lines bytes.now) m.items) }
{
    let mut marks = Vec::new(alloc);
    let mut rest = bytes;
    let mut place = 0;
    while !rest.is_empty() {
        let (line, behind) = rest.split_at(line_len(rest));
        put_place(&mut marks, line, place)?;
        place += line.len() as u64;
        rest = behind;
    }
    Ok(marks)
}

fn count_before(marks: &[u64], place: u64) -> usize
    ensures value { result ≡ prefix_len (λ m. nat_lt m place) marks.now }
    ensures inside { result ≤ length marks.now }
{
    marks.iter().take_while(|mark| **mark < place).count()
}

/// The marks from this place on.
pub(crate) fn marks_behind(marks: &[u64], place: u64) -> &[u64]
    ensures { result.now ≡ marks_from place marks.now }
{
    let (_, behind) = marks.split_at(count_before(marks, place));
    behind
}
