// Which lines are wrong.
ghost use Rattle.std.specs.Prelude.{◌≡◌, ◌<◌, ◌≤◌, ◌+◌, ◌^◌, ⊤, length, MatchOption, Some, None, if◌then◌else◌};
ghost use Rattle.mh_drafts.specs.Marks.{is_said as is_some_line};
ghost use Rattle.mh_drafts.specs.Signs.{directive_sign, text_sign, is_bare, first_wrong as first_wrong_of};
ghost use Rattle.mh_drafts.specs.Behinds.{ends_behind, bare_behind, wrong_by};

use crate::directive::Directive;
use mail_headers::without_line_end;

/// What a line is to the multipart around it.
#[derive(Clone, Copy, Debug, PartialEq, Eq)]
pub(crate) enum Sign {
    Nothing,
    Part,
    Begin,
    End,
    Wrong,
}

/// Whether the line isn't empty.
pub(crate) fn is_said(line: &[u8]) -> bool
    ensures { result ≡ is_some_line line.now }
{
    !without_line_end(line).is_empty()
}

impl Sign {
    pub(crate) fn of_text(said: bool) -> Sign
        ensures { result ≡ text_sign said }
    {
        if said { Sign::Part } else { Sign::Nothing }
    }

    pub(crate) fn of(directive: &Directive) -> Sign
        ensures { result ≡ directive_sign directive.now }
    {
        match directive {
            Directive::Begin(_) => Sign::Begin,
            Directive::End => Sign::End,
            Directive::Part(_, _) => Sign::Part,
            Directive::Wrong => Sign::Wrong,
        }
    }

    /// How many multiparts that are open before this line end from it on, by how many do behind it.
    fn ends(self, behind: usize) -> usize
        requires { behind + 1 < 2 ^ 64 }
        ensures value { result ≡ ends_behind self behind }
        ensures inside { result ≤ behind + 1 }
    {
        match self {
            Sign::Begin => behind.saturating_sub(1),
            Sign::End => behind + 1,
            _ => behind,
        }
    }

    fn is_bare(self, behind: bool) -> bool
        ensures { result ≡ bare_behind self behind }
    {
        match self {
            Sign::Nothing | Sign::Wrong => behind,
            Sign::Part | Sign::Begin => false,
            Sign::End => true,
        }
    }

    fn is_wrong(self, ends: usize, bare: bool) -> bool
        ensures { result ≡ wrong_by self ends bare }
    {
        match self {
            Sign::Wrong => true,
            Sign::Begin => ends == 0 || bare,
            _ => false,
        }
    }
}

/// The place of a line, where it is wrong; else the one behind it.
fn earlier(wrong: bool, place: usize, first: Option<usize>) -> Option<usize>
    ensures { result ≡ (if wrong then Some place else first) }
{
    if wrong { Some(place) } else { first }
}

/// How many lines stand before the first wrong one.
pub(crate) fn first_wrong(signs: &[Sign]) -> Option<usize>
    ensures value { result ≡ first_wrong_of signs.now }
    ensures inside { MatchOption result ⊤ (λ n. n < length signs.now) }
{
    let mut first = None;
    let mut ends = 0;
    let mut bare = true;
    let mut place = signs.len();
    while place > 0 {
        place -= 1;
        let sign = signs[place];
        first = earlier(sign.is_wrong(ends, bare), place, first);
        ends = sign.ends(ends);
        bare = sign.is_bare(bare);
    }
    first
}
