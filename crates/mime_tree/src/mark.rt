// Boundary lines.
ghost use Rattle.std.specs.Prelude.{◌≡◌, ◌≤◌, length, MatchOption, Some, None, option_and_then};
ghost use Rattle.std.specs.List.{list_all};
ghost use Rattle.mail_headers.specs.Lines.{without_end as line_text};
ghost use Rattle.mime_tree.specs.BoundaryLines.{behind_front, hyphens, is_over, mark_of, mark_behind, line_len as first_line_len};
ghost use Rattle.mh_base.specs.Characters.{is_blank};

use mail_headers::without_line_end;

/// What a line is to a multipart.
#[derive(Clone, Copy, Debug, PartialEq, Eq)]
pub(crate) enum Mark {
    Boundary,
    Closing,
    Other,
}

/// The length of the first line, with the line feed that ends it.
pub fn line_len(text: &[u8]) -> usize
    ensures value { result ≡ first_line_len text.now }
    ensures inside { result ≤ length text.now }
{
    for (i, byte) in text.iter().enumerate() {
        if *byte == b'\n' {
            return i + 1;
        }
    }
    text.len()
}

fn is_blank_text(text: &[u8]) -> bool
    ensures { result ≡ list_all is_blank text.now }
{
    text.iter().all(|byte| *byte == b' ' || *byte == b'\t')
}

/// What follows this front.
fn behind<'a>(text: &'a [u8], front: &[u8]) -> Option<&'a [u8]>
    ensures { MatchOption result (behind_front front.now text.now ≡ None)
        (λ rest. behind_front front.now text.now ≡ Some rest.now) }
{
    text.strip_prefix(front)
}

fn ends_boundary(text: &[u8]) -> bool
    ensures { result ≡ is_over (behind_front hyphens text.now) }
{
    match behind(text, b"--") {
        Some(rest) => is_blank_text(rest),
        None => false,
    }
}

fn behind_boundary<'a>(line: &'a [u8], boundary: &[u8]) -> Option<&'a [u8]>
    ensures { MatchOption result (option_and_then (behind_front boundary.now) (behind_front hyphens line.now) ≡ None)
        (λ rest. option_and_then (behind_front boundary.now) (behind_front hyphens line.now) ≡ Some rest.now) }
{
    behind(behind(line, b"--")?, boundary)
}

impl Mark {
    /// What the line is to the multipart of this boundary.
    #[tactic(auto, unfolding(crate::specs::BoundaryLines::mark_of))]
    pub(crate) fn of(line: &[u8], boundary: &[u8]) -> Mark
        ensures { result ≡ mark_of boundary.now line.now }
    {
        match behind_boundary(without_line_end(line), boundary) {
            Some(rest) if is_blank_text(rest) => Mark::Boundary,
            Some(rest) if ends_boundary(rest) => Mark::Closing,
            _ => Mark::Other,
        }
    }
}
