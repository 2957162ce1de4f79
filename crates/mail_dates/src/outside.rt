// A text without its comments.
ghost use Rattle.std.specs.Prelude.{◌≡◌, ◌∷◌, [], MatchOption};

use std::marker::Model;

/// What is left of a text, which contracts see without its comments.
#[derive(Clone, Copy)]
pub(crate) struct Outside<'a> {
    rest: &'a [u8],
}

impl<'a> Outside<'a> {
    ghost use Rattle.mail_dates.specs.Left.{left};

    pub(crate) fn new(text: &'a [u8]) -> Outside<'a>
        ensures { result.rest.now ≡ text.now }
    {
        Outside { rest: text }
    }

    /// The next byte outside comments.
    pub(crate) fn next(&mut self) -> Option<u8>
        ensures { MatchOption result ((left self.old ≡ []) × (left self.new ≡ []))
            (λ byte. left self.old ≡ byte ∷ left self.new) }
    {
        let mut depth = 0usize;
        while let Some((byte, behind)) = self.rest.split_first() {
            self.rest = behind;
            if depth == 0 {
                if *byte != b'(' {
                    return Some(*byte);
                }
                depth = 1;
            } else if *byte == b'(' {
                depth += 1;
            } else if *byte == b')' {
                depth -= 1;
            } else if *byte == b'\\' {
                (_, self.rest) = behind.split_at(behind.len().min(1));
            }
        }
        None
    }
}
