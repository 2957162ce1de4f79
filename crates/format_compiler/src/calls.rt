// Calls of functions, as they are written.
ghost use Rattle.std.specs.Prelude.{◌≡◌, ◌≤◌, ◌<◌, length, IfOk};
ghost use Rattle.std.specs.List.{prefix_len};
ghost use Rattle.format_compiler.specs.Calls.{call_in, fitting as fitting_of, front_in, function_in, is_in_name as is_in_a_name, with_around as with_around_of};
ghost use Rattle.format_compiler.specs.Functions.{function_named};
ghost use Rattle.format_compiler.specs.Fronts.{front_of};
ghost use Rattle.format_compiler.specs.Outcomes.{Gives};
ghost use Rattle.format_compiler.specs.Reading.{then_character};

use crate::arguments::{argument, closed};
use crate::front::Front;
use crate::named::named;
use crate::stop::Stop;
use crate::{Call, Function};
use std::alloc::{AllocError, Global};

fn is_in_name(c: char) -> bool
    ensures { result ≡ is_in_a_name c }
{
    !(c == ' ' || c == '{' || c == '(' || c == ')')
}

fn name_len(text: &[char]) -> usize
    ensures value { result ≡ prefix_len is_in_a_name text.now }
    ensures inside { result ≤ length text.now }
{
    text.iter().take_while(|c| is_in_name(**c)).count()
}

/// The function of this name, if it can stand here.
fn fitting<'a>(
    in_test: bool,
    text: &'a [char],
    name: &[char],
    behind: &'a [char],
) -> Result<(Function, &'a [char]), Stop<'a>>
    ensures given { Gives (λ x. (x.0, x.1.now)) result
        (fitting_of in_test text.now behind.now (function_named name.now)) }
    ensures same { IfOk result (λ x. x.1.now ≡ behind.now) }
{
    match named(name) {
        Some(function) if !in_test || function.has_result() => Ok((function, behind)),
        _ => Err(Stop::Wrong(text)),
    }
}

/// The function whose name stands here.
fn function<'a>(in_test: bool, text: &'a [char]) -> Result<(Function, &'a [char]), Stop<'a>>
    ensures given { Gives (λ x. (x.0, x.1.now)) result (function_in in_test text.now) }
    ensures shorter { IfOk result (λ x. length x.1.now ≤ length text.now) }
{
    let (name, behind) = text.split_at(name_len(text));
    if behind.is_empty() {
        return Err(Stop::Wrong(&[]));
    }
    fitting(in_test, text, name, behind)
}

/// What stands behind an opening parenthesis.
fn front<'a>(
    alloc: Global,
    in_test: bool,
    text: &'a [char],
) -> Result<(Front<'a>, &'a [char]), Stop<'a>>
    ensures given { Gives (λ x. (front_of x.0, x.1.now)) result (front_in in_test text.now) }
    ensures shorter { IfOk result (λ x. length x.1.now < length text.now) }
{
    let (function, behind) = function(in_test, text)?;
    argument(alloc, function.kind(), function, behind)
}

fn with_around(call: Call, function: Function) -> Result<Call, AllocError>
    ensures { IfOk result (λ c. c ≡ with_around_of function call) }
{
    let Call {
        function: innermost,
        argument,
        mut around,
    } = call;
    around.push(function)?;
    Ok(Call {
        function: innermost,
        argument,
        around,
    })
}

/// A function around a call, whose closing parenthesis must stand here.
fn closed_around<'a>(
    function: Function,
    inner: Call,
    text: &'a [char],
) -> Result<(Call, &'a [char]), Stop<'a>>
    ensures given { Gives (λ x. (x.0, x.1.now)) result (then_character 41 (with_around_of function inner) text.now) }
    ensures shorter { IfOk result (λ x. length x.1.now < length text.now) }
{
    let behind = closed(text)?;
    let call = with_around(inner, function)?;
    Ok((call, behind))
}

/// The call behind an opening parenthesis, with at most so many functions in one another.
#[tactic(auto, unfolding(crate::specs::Calls::call_in))]
pub(crate) fn call<'a>(
    alloc: Global,
    room: usize,
    in_test: bool,
    whole: &'a [char],
    text: &'a [char],
) -> Result<(Call, &'a [char]), Stop<'a>>
    ensures given { Gives (λ x. (x.0, x.1.now)) result (call_in room in_test whole.now text.now) }
    ensures shorter { IfOk result (λ x. length x.1.now < length text.now) }
{
    if room == 0 {
        return Err(Stop::Wrong(whole));
    }
    let (front, behind) = front(alloc, in_test, text)?;
    match front {
        Front::Whole(call) => Ok((call, behind)),
        Front::Around(function, whole) => {
            match call(alloc, room - 1, false, whole, behind) {
                Ok((inner, from_end)) => closed_around(function, inner, from_end),
                Err(stop) => Err(stop),
            }
        }
    }
}
