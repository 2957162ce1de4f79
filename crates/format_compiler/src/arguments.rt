// What stands behind the names of functions.
ghost use Rattle.std.specs.Prelude.{◌≡◌, ◌≤◌, ◌<◌, [], length, IfOk};
ghost use Rattle.std.specs.List.{prefix_len};
ghost use Rattle.format_compiler.specs.Arguments.{spaced_literal_in, spaced_number_in};
ghost use Rattle.format_compiler.specs.Calls.{argument_in, behind_spaces as behind_spaces_of, called, closed_component_in, closed_or, component_by, is_space, one_call as call_of, source_by, Whole};
ghost use Rattle.format_compiler.specs.Fronts.{front_of};
ghost use Rattle.format_compiler.specs.Outcomes.{Gives};
ghost use Rattle.format_compiler.specs.Reading.{behind_character, then_character};
ghost use Rattle.format_compiler.specs.declared.argument.Argument.TheVariants.{Nothing, Literal, Number, Component};

use crate::components::component;
use crate::front::Front;
use crate::literals::{spaced_literal, text_of};
use crate::numbers::spaced_number;
use crate::stop::Stop;
use crate::{Argument, ArgumentKind, Call, Function};
use mh_base::{List, Text};
use std::alloc::Global;

/// The closing parenthesis, which must stand here.
pub(crate) fn closed<'a>(text: &'a [char]) -> Result<&'a [char], Stop<'a>>
    ensures given { Gives (λ behind. behind.now) result (behind_character 41 text.now) }
    ensures shorter { IfOk result (λ x. length x.now < length text.now) }
{
    match text.split_first() {
        None => Err(Stop::Wrong(&[])),
        Some((')', behind)) => Ok(behind),
        Some(_) => Err(Stop::Wrong(text)),
    }
}

fn spaces_len(text: &[char]) -> usize
    ensures value { result ≡ prefix_len is_space text.now }
    ensures inside { result ≤ length text.now }
{
    text.iter().take_while(|c| **c == ' ').count()
}

fn behind_spaces<'a>(text: &'a [char]) -> &'a [char]
    ensures value { result.now ≡ behind_spaces_of text.now }
    ensures shorter { length result.now ≤ length text.now }
{
    let (_, behind) = text.split_at(spaces_len(text));
    behind
}

fn one_call(alloc: Global, function: Function, argument: Argument) -> Call
    ensures { result ≡ call_of function argument }
{
    Call {
        function,
        argument,
        around: List::new(alloc),
    }
}

fn literal_call<'a>(
    alloc: Global,
    function: Function,
    text: &'a [char],
) -> Result<(Front<'a>, &'a [char]), Stop<'a>>
    ensures given { Gives (λ x. (front_of x.0, x.1.now)) result (called function Literal (spaced_literal_in text.now)) }
    ensures shorter { IfOk result (λ x. length x.1.now < length text.now) }
{
    let (literal, behind) = spaced_literal(text)?;
    let literal = text_of(alloc, literal)?;
    Ok((
        Front::Whole(one_call(alloc, function, Argument::Literal(literal))),
        behind,
    ))
}

fn number_call<'a>(
    alloc: Global,
    function: Function,
    text: &'a [char],
) -> Result<(Front<'a>, &'a [char]), Stop<'a>>
    ensures given { Gives (λ x. (front_of x.0, x.1.now)) result (called function Number (spaced_number_in text.now)) }
    ensures shorter { IfOk result (λ x. length x.1.now < length text.now) }
{
    let (number, behind) = spaced_number(text)?;
    Ok((
        Front::Whole(one_call(alloc, function, Argument::Number(number))),
        behind,
    ))
}

/// A component behind its opening brace, and the closing parenthesis.
fn component_call<'a>(
    alloc: Global,
    function: Function,
    whole: &'a [char],
    text: &'a [char],
) -> Result<(Front<'a>, &'a [char]), Stop<'a>>
    ensures given { Gives (λ x. (front_of x.0, x.1.now)) result
        (called function Component (closed_component_in whole.now text.now)) }
    ensures shorter { IfOk result (λ x. length x.1.now < length text.now) }
{
    let (name, from_end) = component(whole, text)?;
    let behind = closed(from_end)?;
    let name = text_of(alloc, name)?;
    Ok((
        Front::Whole(one_call(alloc, function, Argument::Component(name))),
        behind,
    ))
}

/// A component behind spaces.
fn component_argument<'a>(
    alloc: Global,
    function: Function,
    text: &'a [char],
) -> Result<(Front<'a>, &'a [char]), Stop<'a>>
    ensures given { Gives (λ x. (front_of x.0, x.1.now)) result
        (component_by text.now function (behind_spaces_of text.now)) }
    ensures shorter { IfOk result (λ x. length x.1.now < length text.now) }
{
    match behind_spaces(text).split_first() {
        None => Err(Stop::Wrong(&[])),
        Some(('{', inner)) => component_call(alloc, function, text, inner),
        Some(_) => Err(Stop::Wrong(text)),
    }
}

/// A component or a function behind spaces.
fn source_argument<'a>(
    alloc: Global,
    function: Function,
    text: &'a [char],
) -> Result<(Front<'a>, &'a [char]), Stop<'a>>
    ensures given { Gives (λ x. (front_of x.0, x.1.now)) result
        (source_by text.now function (behind_spaces_of text.now)) }
    ensures shorter { IfOk result (λ x. length x.1.now < length text.now) }
{
    match behind_spaces(text).split_first() {
        None => Err(Stop::Wrong(&[])),
        Some(('{', inner)) => component_call(alloc, function, text, inner),
        Some(('(', inner)) => Ok((Front::Around(function, text), inner)),
        Some(_) => Err(Stop::Wrong(text)),
    }
}

fn literal_or_nothing<'a>(
    alloc: Global,
    function: Function,
    text: &'a [char],
) -> Result<(Front<'a>, &'a [char]), Stop<'a>>
    ensures given { Gives (λ x. (front_of x.0, x.1.now)) result
        (closed_or (call_of function (Literal [])) (called function Literal (spaced_literal_in text.now)) text.now) }
    ensures shorter { IfOk result (λ x. length x.1.now < length text.now) }
{
    match text.split_first() {
        None => Err(Stop::Wrong(&[])),
        Some((')', behind)) => Ok((
            Front::Whole(one_call(alloc, function, Argument::Literal(Text::new(alloc)))),
            behind,
        )),
        Some(_) => literal_call(alloc, function, text),
    }
}

fn source_or_nothing<'a>(
    alloc: Global,
    function: Function,
    text: &'a [char],
) -> Result<(Front<'a>, &'a [char]), Stop<'a>>
    ensures given { Gives (λ x. (front_of x.0, x.1.now)) result
        (closed_or (call_of function Nothing) (source_by text.now function (behind_spaces_of text.now)) text.now) }
    ensures shorter { IfOk result (λ x. length x.1.now < length text.now) }
{
    match text.split_first() {
        None => Err(Stop::Wrong(&[])),
        Some((')', behind)) => Ok((
            Front::Whole(one_call(alloc, function, Argument::Nothing)),
            behind,
        )),
        Some(_) => source_argument(alloc, function, text),
    }
}

fn no_argument<'a>(
    alloc: Global,
    function: Function,
    text: &'a [char],
) -> Result<(Front<'a>, &'a [char]), Stop<'a>>
    ensures given { Gives (λ x. (front_of x.0, x.1.now)) result
        (then_character 41 (Whole (call_of function Nothing)) text.now) }
    ensures shorter { IfOk result (λ x. length x.1.now < length text.now) }
{
    let behind = closed(text)?;
    Ok((
        Front::Whole(one_call(alloc, function, Argument::Nothing)),
        behind,
    ))
}

/// What stands behind a function's name that takes an argument of this kind.
pub(crate) fn argument<'a>(
    alloc: Global,
    kind: ArgumentKind,
    function: Function,
    text: &'a [char],
) -> Result<(Front<'a>, &'a [char]), Stop<'a>>
    ensures given { Gives (λ x. (front_of x.0, x.1.now)) result (argument_in kind function text.now) }
    ensures shorter { IfOk result (λ x. length x.1.now < length text.now) }
{
    match kind {
        ArgumentKind::Nothing => no_argument(alloc, function, text),
        ArgumentKind::Literal => literal_call(alloc, function, text),
        ArgumentKind::LiteralOrNothing => literal_or_nothing(alloc, function, text),
        ArgumentKind::Number => number_call(alloc, function, text),
        ArgumentKind::Component => component_argument(alloc, function, text),
        ArgumentKind::Source => source_argument(alloc, function, text),
        ArgumentKind::SourceOrNothing => source_or_nothing(alloc, function, text),
    }
}
