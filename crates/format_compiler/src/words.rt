// Words, as they are written.
ghost use Rattle.std.specs.Prelude.{◌≡◌, ◌≤◌, ◌<◌, length, IfOk};
ghost use Rattle.std.specs.List.{prefix_len};
ghost use Rattle.format_compiler.specs.Outcomes.{Gives};
ghost use Rattle.format_compiler.specs.Widths.{width_of};
ghost use Rattle.format_compiler.specs.Words.{behind_line as behind_line_of, call_test_in, component_test_in, else_if_in, mark_in, printed_call_in, printed_component_in, escape_in, escaped as escaped_by, if_in, is_in_line, percent_in, printed_by, printed_in, sized_by, test_in, word_in};

use crate::calls::call;
use crate::components::component;
use crate::conditionals::Conditionals;
use crate::literals::text_of;
use crate::stop::Stop;
use crate::widths::{begins_width, digits_len, width};
use crate::{Piece, Test, Width, Word};
use std::alloc::Global;

/// The character for which a backslash and this one stand.
fn escaped(c: char) -> char
    ensures { result ≡ escaped_by c }
{
    match c {
        'n' => '\n',
        't' => '\t',
        'r' => '\r',
        'b' => '\u{8}',
        'f' => '\u{c}',
        _ => c,
    }
}

/// What stands behind a backslash.
fn escape<'a>(text: &'a [char]) -> Result<(Word, &'a [char]), Stop<'a>>
    ensures given { Gives (λ x. (x.0, x.1.now)) result (escape_in text.now) }
    ensures shorter { IfOk result (λ x. length x.1.now ≤ length text.now) }
{
    match text.split_first() {
        None => Err(Stop::Wrong(&[])),
        Some(('\n', behind)) => Ok((Word::Nothing, behind)),
        Some((c, behind)) => Ok((Word::Print(Piece::Character(escaped(*c))), behind)),
    }
}

fn line_len(text: &[char]) -> usize
    ensures value { result ≡ prefix_len is_in_line text.now }
    ensures inside { result ≤ length text.now }
{
    text.iter().take_while(|c| **c != '\n').count()
}

/// What stands behind the line feed of this line.
fn behind_line<'a>(text: &'a [char]) -> &'a [char]
    ensures value { result.now ≡ behind_line_of text.now }
    ensures shorter { length result.now ≤ length text.now }
{
    let (_, from_end) = text.split_at(line_len(text));
    match from_end.split_first() {
        Some((_, behind)) => behind,
        None => from_end,
    }
}

fn component_test<'a>(
    alloc: Global,
    whole: &'a [char],
    text: &'a [char],
) -> Result<(Test, &'a [char]), Stop<'a>>
    ensures given { Gives (λ x. (x.0, x.1.now)) result (component_test_in whole.now text.now) }
    ensures shorter { IfOk result (λ x. length x.1.now < length text.now) }
{
    let (name, behind) = component(whole, text)?;
    let name = text_of(alloc, name)?;
    Ok((Test::Component(name), behind))
}

fn call_test<'a>(
    alloc: Global,
    room: usize,
    whole: &'a [char],
    text: &'a [char],
) -> Result<(Test, &'a [char]), Stop<'a>>
    ensures given { Gives (λ x. (x.0, x.1.now)) result (call_test_in room whole.now text.now) }
    ensures shorter { IfOk result (λ x. length x.1.now < length text.now) }
{
    let (call, behind) = call(alloc, room, true, whole, text)?;
    Ok((Test::Call(call), behind))
}

/// A test, in which at most so many functions are in one another.
fn test<'a>(alloc: Global, room: usize, text: &'a [char]) -> Result<(Test, &'a [char]), Stop<'a>>
    ensures given { Gives (λ x. (x.0, x.1.now)) result (test_in room text.now) }
    ensures shorter { IfOk result (λ x. length x.1.now < length text.now) }
{
    match text.split_first() {
        None => Err(Stop::Wrong(&[])),
        Some(('{', inner)) => component_test(alloc, text, inner),
        Some(('(', inner)) => call_test(alloc, room, text, inner),
        Some(_) => Err(Stop::Wrong(text)),
    }
}

/// `%<` and its test, if a conditional may be opened.
fn if_word<'a>(
    alloc: Global,
    room: usize,
    whole: &'a [char],
    text: &'a [char],
) -> Result<(Word, &'a [char]), Stop<'a>>
    ensures given { Gives (λ x. (x.0, x.1.now)) result (if_in room whole.now text.now) }
    ensures shorter { IfOk result (λ x. length x.1.now < length text.now) }
{
    if room == 0 {
        return Err(Stop::Wrong(whole));
    }
    let (test, behind) = test(alloc, room - 1, text)?;
    Ok((Word::If(test), behind))
}

/// `%?` and its test, if it can stand here.
fn else_if_word<'a>(
    alloc: Global,
    can_stand: bool,
    room: usize,
    whole: &'a [char],
    text: &'a [char],
) -> Result<(Word, &'a [char]), Stop<'a>>
    ensures given { Gives (λ x. (x.0, x.1.now)) result (else_if_in can_stand room whole.now text.now) }
    ensures shorter { IfOk result (λ x. length x.1.now < length text.now) }
{
    if !can_stand {
        return Err(Stop::Wrong(whole));
    }
    let (test, behind) = test(alloc, room, text)?;
    Ok((Word::ElseIf(test), behind))
}

/// A mark, if it can stand here.
fn mark<'a>(
    can_stand: bool,
    word: Word,
    whole: &'a [char],
    text: &'a [char],
) -> Result<(Word, &'a [char]), Stop<'a>>
    ensures given { Gives (λ x. (x.0, x.1.now)) result (mark_in can_stand word whole.now text.now) }
    ensures shorter { IfOk result (λ x. length x.1.now ≤ length text.now) }
{
    if can_stand {
        Ok((word, text))
    } else {
        Err(Stop::Wrong(whole))
    }
}

fn printed_component<'a>(
    alloc: Global,
    width: Option<Width>,
    whole: &'a [char],
    text: &'a [char],
) -> Result<(Word, &'a [char]), Stop<'a>>
    ensures given { Gives (λ x. (x.0, x.1.now)) result (printed_component_in width whole.now text.now) }
    ensures shorter { IfOk result (λ x. length x.1.now < length text.now) }
{
    let (name, behind) = component(whole, text)?;
    let name = text_of(alloc, name)?;
    Ok((Word::Print(Piece::Component { width, name }), behind))
}

fn printed_call<'a>(
    alloc: Global,
    room: usize,
    width: Option<Width>,
    whole: &'a [char],
    text: &'a [char],
) -> Result<(Word, &'a [char]), Stop<'a>>
    ensures given { Gives (λ x. (x.0, x.1.now)) result (printed_call_in room width whole.now text.now) }
    ensures shorter { IfOk result (λ x. length x.1.now < length text.now) }
{
    let (call, behind) = call(alloc, room, false, whole, text)?;
    Ok((Word::Print(Piece::Call { width, call }), behind))
}

/// What is printed behind a width.
fn sized<'a>(
    alloc: Global,
    room: usize,
    whole: &'a [char],
    digits: &[char],
    text: &'a [char],
) -> Result<(Word, &'a [char]), Stop<'a>>
    ensures given { Gives (λ x. (x.0, x.1.now)) result (sized_by room whole.now digits.now text.now) }
    ensures shorter { IfOk result (λ x. length x.1.now < length text.now) }
{
    let Some((c, inner)) = text.split_first() else {
        return if begins_width(digits) {
            Err(Stop::Wrong(&[]))
        } else {
            Err(Stop::Wrong(whole))
        };
    };
    match width(digits) {
        None => Err(Stop::Wrong(whole)),
        Some(width) => match c {
            '{' => printed_component(alloc, width, whole, inner),
            '(' => printed_call(alloc, room, width, whole, inner),
            _ => Err(Stop::Wrong(whole)),
        },
    }
}

/// What is printed behind a percent sign.
fn printed<'a>(
    alloc: Global,
    room: usize,
    whole: &'a [char],
    text: &'a [char],
) -> Result<(Word, &'a [char]), Stop<'a>>
    ensures given { Gives (λ x. (x.0, x.1.now)) result (printed_in room whole.now text.now) }
    ensures shorter { IfOk result (λ x. length x.1.now < length text.now) }
{
    let (digits, from_end) = text.split_at(digits_len(text));
    sized(alloc, room, whole, digits, from_end)
}

/// The word that a percent sign begins.
fn percent<'a>(
    alloc: Global,
    conditionals: &Conditionals,
    whole: &'a [char],
    text: &'a [char],
) -> Result<(Word, &'a [char]), Stop<'a>>
    ensures given { Gives (λ x. (x.0, x.1.now)) result (percent_in conditionals.now whole.now text.now) }
    ensures shorter { IfOk result (λ x. length x.1.now ≤ length text.now) }
{
    let room = conditionals.room();
    let Some((c, inner)) = text.split_first() else {
        return Err(Stop::Wrong(&[]));
    };
    match c {
        '%' => Ok((Word::Print(Piece::Character('%')), inner)),
        ';' => Ok((Word::Nothing, behind_line(inner))),
        '<' => if_word(alloc, room, whole, inner),
        '?' => else_if_word(alloc, conditionals.may_choose(), room, whole, inner),
        '|' => mark(conditionals.may_choose(), Word::Else, whole, inner),
        '>' => mark(conditionals.is_inside(), Word::End, whole, inner),
        _ => printed(alloc, room, whole, text),
    }
}

/// The word at the front of a text.
#[tactic(auto, unfolding(crate::specs::Words::word_in))]
pub(crate) fn word<'a>(
    alloc: Global,
    conditionals: &Conditionals,
    text: &'a [char],
) -> Result<(Word, &'a [char]), Stop<'a>>
    ensures given { Gives (λ x. (x.0, x.1.now)) result (word_in conditionals.now text.now) }
    ensures shorter { IfOk result (λ x. length x.1.now < length text.now) }
{
    match text.split_first() {
        None => Err(Stop::Wrong(&[])),
        Some(('%', inner)) => percent(alloc, conditionals, text, inner),
        Some(('\\', inner)) => escape(inner),
        Some((c, behind)) => Ok((Word::Print(Piece::Character(*c)), behind)),
    }
}
