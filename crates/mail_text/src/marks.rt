// Where the characters of an address stand.
ghost use Rattle.std.specs.Prelude.{◌≡◌, ◌+◌, ◌≤◌, ◌<◌, ◌^◌, IfOk};
ghost use Rattle.mail_text.specs.Marks.{inside_behind, depth_of, place_of, marks as marks_of, is_outside as stands_outside, is_in_quotes as stands_in_quotes, is_in_comment as stands_in_comment, is_in_one_comment as stands_in_one_comment};

use std::alloc::{AllocError, Global};
use std::mem::size_of;

/// What a character stands in, before it is read.
#[derive(Clone, Copy, Drop)]
pub(crate) enum Inside {
    Nothing,
    Quotes,
    ProtectedInQuotes,
    /// A comment that stands in so many others.
    Comments(usize),
    ProtectedInComments(usize),
    Brackets,
}

impl Inside {
    /// What the next character stands in.
    fn behind(self, c: char) -> Inside
        requires { depth_of self + 1 < 2 ^ 64 }
        ensures value { result ≡ inside_behind self c }
        ensures depth { depth_of result ≤ depth_of self + 1 }
    {
        match self {
            Inside::Nothing => match c {
                '"' => Inside::Quotes,
                '(' => Inside::Comments(0),
                '<' => Inside::Brackets,
                _ => Inside::Nothing,
            },
            Inside::Quotes => match c {
                '"' => Inside::Nothing,
                '\\' => Inside::ProtectedInQuotes,
                _ => Inside::Quotes,
            },
            Inside::ProtectedInQuotes => Inside::Quotes,
            Inside::Comments(depth) => comment_behind(depth, c),
            Inside::ProtectedInComments(depth) => Inside::Comments(depth),
            Inside::Brackets => {
                if c == '>' {
                    Inside::Nothing
                } else {
                    Inside::Brackets
                }
            }
        }
    }

    /// Where a character stands.
    fn place(self) -> Surrounding
        ensures { result ≡ place_of self }
    {
        match self {
            Inside::Nothing => Surrounding::Outside,
            Inside::Quotes => Surrounding::InQuotes,
            Inside::ProtectedInQuotes => Surrounding::Elsewhere,
            Inside::Comments(depth) if depth == 0 => Surrounding::Comment,
            Inside::Comments(_) | Inside::ProtectedInComments(_) => Surrounding::WithinComment,
            Inside::Brackets => Surrounding::Elsewhere,
        }
    }
}

/// What stands behind a character of a comment.
fn comment_behind(depth: usize, c: char) -> Inside
    requires { depth + 1 < 2 ^ 64 }
    ensures value { result ≡ inside_behind (Inside.Comments depth) c }
    ensures depth { depth_of result ≤ depth + 1 }
{
    match c {
        '\\' => Inside::ProtectedInComments(depth),
        '(' => Inside::Comments(depth + 1),
        ')' if depth == 0 => Inside::Nothing,
        ')' => Inside::Comments(depth - 1),
        _ => Inside::Comments(depth),
    }
}

/// What is kept of where a character stands, in one byte.
#[derive(Clone, Copy, Drop)]
pub(crate) enum Surrounding {
    Outside,
    /// Not protected there.
    InQuotes,
    /// In a comment that stands in no other, and not protected.
    Comment,
    /// Protected in a comment, or in one that stands in another.
    WithinComment,
    /// In brackets, or protected in quotes.
    Elsewhere,
}

impl Surrounding {
    fn is_outside(self) -> bool
        ensures { result ≡ stands_outside self }
    {
        match self {
            Surrounding::Outside => true,
            _ => false,
        }
    }

    fn is_in_quotes(self) -> bool
        ensures { result ≡ stands_in_quotes self }
    {
        match self {
            Surrounding::InQuotes => true,
            _ => false,
        }
    }

    fn is_in_comment(self) -> bool
        ensures { result ≡ stands_in_comment self }
    {
        match self {
            Surrounding::Comment | Surrounding::WithinComment => true,
            _ => false,
        }
    }

    fn is_in_one_comment(self) -> bool
        ensures { result ≡ stands_in_one_comment self }
    {
        match self {
            Surrounding::Comment => true,
            _ => false,
        }
    }
}

/// A character, and where it stands.
#[derive(Clone, Copy, Drop)]
pub(crate) struct Mark {
    pub(crate) place: Surrounding,
    pub(crate) c: char,
}

const _: () = prove!(size_of::<Mark>() == 8);

impl Mark {
    ghost use Rattle.mail_text.specs.Addresses.{is_comma as is_a_comma, is_bracket as is_a_bracket, opens_comment as opens_a_comment, closes_comment as closes_a_comment, is_of_comment as is_of_a_comment, is_quote as is_a_quote};

    /// A comma that ends an address.
    pub(crate) fn is_comma(self) -> bool
        ensures { result ≡ is_a_comma self }
    {
        self.place.is_outside() && self.c == ','
    }

    /// The angle bracket before an address.
    pub(crate) fn is_bracket(self) -> bool
        ensures { result ≡ is_a_bracket self }
    {
        self.place.is_outside() && self.c == '<'
    }

    pub(crate) fn opens_comment(self) -> bool
        ensures { result ≡ opens_a_comment self }
    {
        self.place.is_outside() && self.c == '('
    }

    /// Ends a comment that stands in no other.
    pub(crate) fn closes_comment(self) -> bool
        ensures { result ≡ closes_a_comment self }
    {
        self.place.is_in_one_comment() && self.c == ')'
    }

    pub(crate) fn is_of_comment(self) -> bool
        ensures { result ≡ is_of_a_comment self }
    {
        self.place.is_in_comment() || self.opens_comment()
    }

    pub(crate) fn is_quote(self) -> bool
        ensures { result ≡ is_a_quote self }
    {
        (self.place.is_outside() || self.place.is_in_quotes()) && self.c == '"'
    }
}

/// Each character of a text, with what it stands in.
pub(crate) fn marks(alloc: Global, text: &[char]) -> Result<Vec<Mark>, AllocError>
    ensures { IfOk result (λ ms. ms.items ≡ marks_of text.now) }
{
    let mut marks = Vec::with_capacity(alloc, text.len())?;
    let mut inside = Inside::Nothing;
    for c in text {
        marks.push(Mark {
            place: inside.place(),
            c: *c,
        })?;
        inside = inside.behind(*c);
    }
    Ok(marks)
}
