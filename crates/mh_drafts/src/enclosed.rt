// What stands between brackets.
ghost use Rattle.std.specs.Prelude.{◌≡◌, ◌≤◌, ◌<◌, ◌==◌, ⊤, not, length, MatchOption, Some, None};
ghost use Rattle.std.specs.List.{prefix_len};
ghost use Rattle.mh_drafts.specs.Enclosed.{enclosed_in, comment_in, byte_place as place_of_byte, closed_at};
ghost use Rattle.mh_drafts.specs.RawEnclosed.{enclosed_of};

use crate::attributes::behind_byte;
use crate::blanks::behind_blanks;
use crate::comment::comment_end;

/// What stands between brackets, where these stand, and what follows them and the blanks behind them.
#[derive(Clone, Copy, Debug)]
pub(crate) struct Enclosed<'a> {
    pub(crate) inside: Option<&'a [u8]>,
    pub(crate) rest: &'a [u8],
}

/// How many bytes stand before this one.
fn len_before(text: &[u8], byte: u8) -> usize
    ensures value { result ≡ prefix_len (λ b. not (b == byte)) text.now }
    ensures inside { result ≤ length text.now }
{
    text.iter().take_while(|one| **one != byte).count()
}

/// The first place of this byte.
fn byte_place(text: &[u8], byte: u8) -> Option<usize>
    ensures value { result ≡ place_of_byte byte text.now }
    ensures inside { MatchOption result ⊤ (λ n. n < length text.now) }
{
    let len = len_before(text, byte);
    if len < text.len() { Some(len) } else { None }
}

/// What stands before and behind a closing bracket.
fn closed(text: &[u8], place: usize) -> Enclosed<'_>
    requires { place < length text.now }
    ensures { enclosed_of result ≡ closed_at text.now place }
{
    let (inside, _) = text.split_at(place);
    let (_, rest) = text.split_at(place + 1);
    Enclosed {
        inside: Some(inside),
        rest: behind_blanks(rest),
    }
}

/// What stands between these brackets at the front.
pub(crate) fn read_enclosed(text: &[u8], first: u8, last: u8) -> Option<Enclosed<'_>>
    ensures { MatchOption result (enclosed_in first last text.now ≡ None)
        (λ e. enclosed_in first last text.now ≡ Some (enclosed_of e)) }
{
    match behind_byte(text, first) {
        Some(rest) => Some(closed(rest, byte_place(rest, last)?)),
        None => Some(Enclosed {
            inside: None,
            rest: text,
        }),
    }
}

/// The comment at the front.
pub(crate) fn read_comment(text: &[u8]) -> Option<Enclosed<'_>>
    ensures { MatchOption result (comment_in text.now ≡ None) (λ e. comment_in text.now ≡ Some (enclosed_of e)) }
{
    match behind_byte(text, b'(') {
        Some(rest) => Some(closed(rest, comment_end(rest)?)),
        None => Some(Enclosed {
            inside: None,
            rest: text,
        }),
    }
}
