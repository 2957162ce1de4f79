// Blanks and comments.
ghost use Rattle.std.specs.Prelude.{◌≡◌, ◌≤◌, ◌<◌, ◌^◌, ◌-◌, ◌+◌, ⊤, length, MatchOption, Some, None};
ghost use Rattle.mime_tree.specs.Gaps.{closed_of, place_behind, at_end, behind_gap as gap_rest};
ghost use Rattle.mime_tree.specs.Depths.{depth_of, is_between};

/// A place between words: outside comments, in so many of them, or behind a backslash there.
#[derive(Clone, Copy, Debug)]
pub(crate) enum Nesting {
    Between,
    Inside(usize),
    Protected(usize),
}

fn closed(depth: usize) -> Nesting
    ensures { result ≡ closed_of depth }
{
    if depth == 1 {
        Nesting::Between
    } else {
        Nesting::Inside(depth.saturating_sub(1))
    }
}

impl Nesting {
    /// The place behind a byte; none where a word begins with it.
    fn behind(self, byte: u8) -> Option<Nesting>
        requires { depth_of self + 1 < 2 ^ 64 }
        ensures { result ≡ place_behind self byte }
    {
        match self {
            Nesting::Between => match byte {
                b'(' => Some(Nesting::Inside(1)),
                b' ' | b'\t' => Some(Nesting::Between),
                _ => None,
            },
            Nesting::Inside(depth) => Some(match byte {
                b'\\' => Nesting::Protected(depth),
                b'(' => Nesting::Inside(depth + 1),
                b')' => closed(depth),
                _ => Nesting::Inside(depth),
            }),
            Nesting::Protected(depth) => Some(Nesting::Inside(depth)),
        }
    }

    fn is_between(self) -> bool
        ensures { result ≡ is_between self }
    {
        match self {
            Nesting::Between => true,
            _ => false,
        }
    }
}

/// What follows the blanks and comments at the front; nothing does where a comment isn't closed.
pub(crate) fn behind_gap(text: &[u8]) -> Option<&[u8]>
    ensures value { MatchOption result (gap_rest text.now ≡ None) (λ rest. gap_rest text.now ≡ Some rest.now) }
    ensures inside { MatchOption result ⊤ (λ rest. length rest.now ≤ length text.now) }
{
    let mut place = Nesting::Between;
    for (i, byte) in text.iter().enumerate() {
        match place.behind(*byte) {
            Some(next) => place = next,
            None => {
                let (_, rest) = text.split_at(i);
                return Some(rest);
            }
        }
    }
    if place.is_between() { Some(&[]) } else { None }
}
