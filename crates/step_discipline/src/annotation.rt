// Copies of a message with lines before it.
ghost use Rattle.std.specs.Prelude.{◌≡◌, ◌↔◌, ◌==◌, IsTrue};
ghost use Rattle.std.specs.List.{list_all, slice_split};
ghost use Rattle.folder_files.specs.Annotations as lines;

use crate::ends::before;
use mail_headers::name_len;

fn is_annotation(line: &[u8]) -> bool
    ensures { result ≡ lines.is_annotation line.now }
{
    let (name, rest) = line.split_at(name_len(line));
    !name.is_empty() && rest.starts_with(b": ")
}

fn are_lines(text: &[u8]) -> bool
    ensures { result ≡ list_all lines.is_annotation (slice_split (λ b. b == 10) text.now) }
{
    text.split(|byte| *byte == b'\n')
        .all(|line| is_annotation(line))
}

#[tactic(auto, using(crate::proofs::Annotating::lines_feed))]
fn are_annotations(text: &[u8]) -> bool
    ensures { result ≡ lines.are_annotations text.now }
{
    match text.split_last() {
        None => true,
        Some((b'\n', rest)) => are_lines(rest),
        Some(_) => false,
    }
}

/// Whether the copy is the bytes, or annotation lines and then the bytes.
pub fn annotates(copy: &[u8], bytes: &[u8]) -> bool
    ensures { IsTrue result ↔ lines.Annotates bytes.now copy.now }
{
    match before(copy, bytes) {
        Some(text) => are_annotations(text),
        None => false,
    }
}
