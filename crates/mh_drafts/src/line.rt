// What a line of a draft's body is.
ghost use Rattle.std.specs.Prelude.{◌≡◌, IfOk, Some, None, ◌-◌, ◌<◌};
ghost use Rattle.mh_drafts.specs.Directives.{begin_in, end_in, kind_in, directive_in};
ghost use Rattle.mh_drafts.specs.Marks.{hashed as hashed_mark, mark_of, settled as settled_where};
ghost use Rattle.mh_drafts.specs.RawLines.{line_mark};

use crate::Kind;
use crate::blanks::{is_led_by, word_len};
use crate::directive::Directive;
use crate::forwards::forward_line;
use crate::part_line::part_line;
use mail_headers::{unfold, without_line_end};
use std::alloc::{AllocError, Global};

/// How many multiparts may stand in one another.
const DEPTH: u64 = 32;

/// A line of text, or what follows the `#` of a directive.
#[derive(Clone, Copy, Debug)]
pub(crate) enum Line<'a> {
    Text(&'a [u8]),
    Order(&'a [u8]),
}

fn hashed(rest: &[u8]) -> Line<'_>
    ensures { line_mark result ≡ hashed_mark rest.now }
{
    if is_led_by(rest, b'#') {
        Line::Text(rest)
    } else {
        Line::Order(without_line_end(rest))
    }
}

impl<'a> Line<'a> {
    /// What a line is; it has its end.
    pub(crate) fn of(line: &'a [u8]) -> Line<'a>
        ensures { line_mark result ≡ mark_of line.now }
    {
        match line.split_first() {
            Some((b'#', rest)) => hashed(rest),
            _ => Line::Text(line),
        }
    }
}

/// The kind of multipart that a word names; where there is none, a mixed one.
fn read_kind(word: &[u8]) -> Option<Kind>
    ensures { result ≡ kind_in word.now }
{
    if word.is_empty() || word == b"mixed".as_slice() {
        Some(Kind::Mixed)
    } else if word == b"alternative".as_slice() {
        Some(Kind::Alternative)
    } else if word == b"parallel".as_slice() {
        Some(Kind::Parallel)
    } else if word == b"digest".as_slice() {
        Some(Kind::Digest)
    } else {
        None
    }
}

fn begin_line(alloc: Global, text: &[u8]) -> Result<Directive, AllocError>
    ensures { IfOk result (λ d. d ≡ begin_in text.now) }
{
    let word = unfold(alloc, text)?;
    match read_kind(word.as_slice()) {
        Some(kind) => Ok(Directive::Begin(kind)),
        None => Ok(Directive::Wrong),
    }
}

fn end_line(alloc: Global, text: &[u8]) -> Result<Directive, AllocError>
    ensures { IfOk result (λ d. d ≡ end_in text.now) }
{
    let word = unfold(alloc, text)?;
    if word.len() == 0 {
        Ok(Directive::End)
    } else {
        Ok(Directive::Wrong)
    }
}

/// What the text behind a `#` says.
#[tactic(auto, unfolding(crate::specs::Directives::directive_in))]
pub(crate) fn read_directive(alloc: Global, text: &[u8]) -> Result<Directive, AllocError>
    ensures { IfOk result (λ d. d ≡ directive_in text.now) }
{
    let (word, behind) = text.split_at(word_len(text));
    if word == b"begin".as_slice() {
        begin_line(alloc, behind)
    } else if word == b"end".as_slice() {
        end_line(alloc, behind)
    } else if word == b"forw".as_slice() {
        forward_line(alloc, behind)
    } else {
        part_line(alloc, text)
    }
}

/// What a directive is where so many multiparts are open.
pub(crate) fn settled(depth: u64, directive: Directive) -> Directive
    ensures { result ≡ settled_where depth directive }
{
    match directive {
        Directive::Begin(_) if DEPTH <= depth => Directive::Wrong,
        Directive::End if depth == 0 => Directive::Wrong,
        other => other,
    }
}
