// Calls, tests and what is printed.
ghost use Rattle.std.specs.Prelude.{◌≡◌, IfOk, OnOk, None};
ghost use Rattle.format_run.specs.Stepping.{Evaluated, applied, evaluated, evaluated_around, given, holds, judged, printed, settled, sourced, tested, with_result, with_text};
ghost use Rattle.format_run.specs.Meaning.{takes_source as takes_source_of, width_inside as width_inside_of};
ghost use Rattle.format_run.specs.Values.{value_of};

use crate::View;
use crate::answer::{Answer, Outcome};
use crate::answers::answer;
use crate::numbers::is_not_zero;
use crate::state::LineState;
use crate::values::component_value;
use format_compiler::{Argument, ArgumentKind, Call, Function, Piece, Test, Width};
use mh_base::Text;
use std::alloc::{AllocError, Global};

/// Keeps a function's result, or prints what it says.
fn settle(alloc: Global, state: &mut LineState, answer: Answer) -> Result<Outcome, AllocError>
    ensures { IfOk result (λ o. record { state = state.new; outcome = o } ≡ settled answer state.old) }
{
    match answer {
        Answer::Number(number) => {
            state.number = number;
            Ok(Outcome::Number)
        }
        Answer::Text(text) => {
            state.text = text;
            Ok(Outcome::Text)
        }
        Answer::PrintText(width) => {
            state.print_text(alloc, width)?;
            Ok(Outcome::Nothing)
        }
        Answer::PrintNumber(width) => {
            state.print_number(width)?;
            Ok(Outcome::Nothing)
        }
        Answer::PrintAll => {
            state.print_all()?;
            Ok(Outcome::Nothing)
        }
        Answer::Nothing => Ok(Outcome::Nothing),
    }
}

/// Whether an argument may be a component whose value becomes the text.
fn takes_source(kind: ArgumentKind) -> bool
    ensures { result ≡ takes_source_of kind }
{
    matches!(kind, ArgumentKind::Source | ArgumentKind::SourceOrNothing)
}

fn set_text(
    alloc: Global,
    view: &View,
    state: &mut LineState,
    name: &Text,
) -> Result<(), AllocError>
    ensures { OnOk result (state.new ≡ with_text (value_of name.now view.now.message) state.old) }
{
    state.text = component_value(alloc, &view.message, name)?;
    Ok(())
}

/// Sets the text to the value of an argument that is a component.
fn source(
    alloc: Global,
    view: &View,
    state: &mut LineState,
    argument: &Argument,
) -> Result<(), AllocError>
    ensures { OnOk result (state.new ≡ sourced view.now argument.now state.old) }
{
    match argument {
        Argument::Component(name) => set_text(alloc, view, state, name),
        _ => Ok(()),
    }
}

fn give(
    alloc: Global,
    view: &View,
    state: &mut LineState,
    function: Function,
    argument: &Argument,
) -> Result<(), AllocError>
    ensures { OnOk result (state.new ≡ given view.now function argument.now state.old) }
{
    if takes_source(function.kind()) {
        source(alloc, view, state, argument)
    } else {
        Ok(())
    }
}

/// A function of this argument.
#[tactic(auto, unfolding(crate::specs::Stepping::applied))]
fn apply(
    alloc: Global,
    view: &View,
    state: &mut LineState,
    width: Option<Width>,
    function: Function,
    argument: &Argument,
) -> Result<Outcome, AllocError>
    ensures { IfOk result
        (λ o. record { state = state.new; outcome = o } ≡ applied view.now width function argument.now state.old) }
{
    give(alloc, view, state, function, argument)?;
    let answer = answer(alloc, view, state, width, function, argument)?;
    settle(alloc, state, answer)
}

/// The width of a call, inside which these functions stand around what is evaluated.
fn width_inside(around: &[Function], width: Option<Width>) -> Option<Width>
    ensures { result ≡ width_inside_of around.now width }
{
    if around.is_empty() { width } else { None }
}

/// The functions around a call, from the inside on.
fn evaluate_around(
    alloc: Global,
    view: &View,
    state: &mut LineState,
    width: Option<Width>,
    around: &[Function],
    inner: Outcome,
) -> Result<Outcome, AllocError>
    ensures { IfOk result
        (λ o.
        record { state = state.new; outcome = o }
        ≡ evaluated_around view.now width around.now (record { state = state.old; outcome = inner })) }
{
    let mut outcome = inner;
    let mut rest = around;
    while let Some((function, behind)) = rest.split_first() {
        let inside = width_inside(behind, width);
        outcome = apply(alloc, view, state, inside, *function, &Argument::Nothing)?;
        rest = behind;
    }
    Ok(outcome)
}

fn evaluate(
    alloc: Global,
    view: &View,
    state: &mut LineState,
    width: Option<Width>,
    call: &Call,
) -> Result<Outcome, AllocError>
    ensures { IfOk result
        (λ o. record { state = state.new; outcome = o } ≡ evaluated view.now width call.now state.old) }
{
    let around = call.around.as_slice();
    let inside = width_inside(around, width);
    let inner = apply(alloc, view, state, inside, call.function, &call.argument)?;
    evaluate_around(alloc, view, state, width, around, inner)
}

fn print_result(
    alloc: Global,
    state: &mut LineState,
    width: Option<Width>,
    outcome: Outcome,
) -> Result<(), AllocError>
    ensures { OnOk result (state.new ≡ with_result width outcome state.old) }
{
    match outcome {
        Outcome::Number => state.print_number(width),
        Outcome::Text => state.print_text(alloc, width),
        Outcome::Nothing => Ok(()),
    }
}

fn judge(state: &mut LineState, outcome: Outcome)
    ensures { state.new ≡ judged outcome state.old }
{
    if let Outcome::Text = outcome {
        state.weigh();
    }
}

impl LineState {
    /// Prints a part of a format.
    #[tactic(auto, unfolding(crate::specs::Stepping::printed))]
    pub fn print(&mut self, alloc: Global, view: &View, piece: &Piece) -> Result<(), AllocError>
        ensures { OnOk result (self.new ≡ printed view.now piece.now self.old) }
    {
        match piece {
            Piece::Character(c) => self.print_character(*c),
            Piece::Component { width, name } => {
                set_text(alloc, view, self, name)?;
                self.print_text(alloc, *width)
            }
            Piece::Call { width, call } => {
                let outcome = evaluate(alloc, view, self, *width, call)?;
                print_result(alloc, self, *width, outcome)
            }
        }
    }

    /// Evaluates a test, which sets the number.
    #[tactic(auto, unfolding(crate::specs::Stepping::tested))]
    fn evaluate_test(&mut self, alloc: Global, view: &View, test: &Test) -> Result<(), AllocError>
        ensures { OnOk result (self.new ≡ tested view.now test.now self.old) }
    {
        match test {
            Test::Component(name) => {
                set_text(alloc, view, self, name)?;
                self.weigh();
                Ok(())
            }
            Test::Call(call) => {
                let outcome = evaluate(alloc, view, self, None, call)?;
                judge(self, outcome);
                Ok(())
            }
        }
    }

    /// Evaluates a test, and says whether it holds: whether the number isn't 0 then.
    pub fn test(&mut self, alloc: Global, view: &View, test: &Test) -> Result<bool, AllocError>
        ensures state { IfOk result (λ _. self.new ≡ tested view.now test.now self.old) }
        ensures answer { IfOk result (λ is. is ≡ holds (tested view.now test.now self.old)) }
    {
        self.evaluate_test(alloc, view, test)?;
        Ok(is_not_zero(self.number))
    }
}
