// Where comments end.
ghost use Rattle.std.specs.Prelude.{◌≡◌, ◌≤◌, ◌<◌, ◌^◌, ◌+◌, ◌==◌, ◌&&◌, false, ⊤, length, MatchOption, Some, None};
ghost use Rattle.mh_drafts.specs.Comments.{closes as closes_comment, depth_behind as depth_behind_byte, protects as protects_next, comment_end as end_of_comment};

/// A backslash that protects the next byte.
fn protects(protected: bool, byte: u8) -> bool
    ensures { result ≡ protects_next protected byte }
{
    !protected && byte == b'\\'
}

/// A parenthesis that closes the comment in which so many others are open.
fn closes(depth: usize, protected: bool, byte: u8) -> bool
    ensures { result ≡ closes_comment depth protected byte }
{
    !protected && byte == b')' && depth == 0
}

/// How many comments are open within the comment behind this byte, which doesn't close it.
fn depth_behind(depth: usize, protected: bool, byte: u8) -> usize
    requires { depth + 1 < 2 ^ 64 }
    ensures value { result ≡ depth_behind_byte depth protected byte }
    ensures inside { result ≤ depth + 1 }
{
    if !protected && byte == b'(' {
        depth + 1
    } else if !protected && byte == b')' {
        depth.saturating_sub(1)
    } else {
        depth
    }
}

/// The place of the parenthesis that closes a comment, of which the first has been passed.
pub(crate) fn comment_end(text: &[u8]) -> Option<usize>
    ensures value { result ≡ end_of_comment 0 false text.now }
    ensures inside { MatchOption result ⊤ (λ n. n < length text.now) }
{
    let mut depth = 0;
    let mut protected = false;
    for (i, byte) in text.iter().enumerate() {
        if closes(depth, protected, *byte) {
            return Some(i);
        }
        depth = depth_behind(depth, protected, *byte);
        protected = protects(protected, *byte);
    }
    None
}
