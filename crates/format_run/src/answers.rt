// The functions of formats.
ghost use Rattle.std.specs.Prelude.{◌≡◌, ◌-ℤ◌, length, pos, IfOk, IfSome};
ghost use Rattle.std.specs.Str.{encode_utf8_all};
ghost use Rattle.mail_dates.specs.Clocks.{clock_of, IsMailDate};
ghost use Rattle.format_run.specs.Answers.{answer_of, date_of, literal_in, number_in, value_in};
ghost use Rattle.format_run.specs.Dates.{date_number};
ghost use Rattle.format_run.specs.Numbers.{held};
ghost use Rattle.format_run.specs.Stepping.{seen};

use crate::answer::Answer;
use crate::characters::{characters, is_empty};
use crate::numbers::{quotient, remainder, truth};
use crate::state::LineState;
use crate::texts::{begins, contains, leading_number, trim, unquote};
use crate::values::component_value;
use crate::{View, addresses, dates};
use format_compiler::{Argument, Function, Width};
use mail_dates::MailDate;
use mail_text::decode_words;
use mh_base::{Duplicate, Text};
use std::alloc::{AllocError, Global};

/// The bytes of a literal.
fn literal_bytes(argument: &Argument) -> &[u8]
    ensures { result.now ≡ encode_utf8_all (literal_in argument.now) }
{
    match argument {
        Argument::Literal(text) => text.as_str().as_bytes(),
        _ => b"",
    }
}

fn literal(alloc: Global, argument: &Argument) -> Result<Text, AllocError>
    ensures { IfOk result (λ text. text ≡ literal_in argument.now) }
{
    match argument {
        Argument::Literal(text) => text.duplicate(alloc),
        _ => Ok(Text::new(alloc)),
    }
}

fn number(argument: &Argument) -> i64
    ensures { result ≡ number_in argument.now }
{
    match argument {
        Argument::Number(n) => *n,
        _ => 0,
    }
}

/// The value of an argument that is a component.
fn value(alloc: Global, view: &View, argument: &Argument) -> Result<Text, AllocError>
    ensures { IfOk result (λ text. text ≡ value_in view.now argument.now) }
{
    match argument {
        Argument::Component(name) => component_value(alloc, &view.message, name),
        _ => Ok(Text::new(alloc)),
    }
}

/// The date of an argument that is a component.
fn date(alloc: Global, view: &View, argument: &Argument) -> Result<Option<MailDate>, AllocError>
    ensures value { IfOk result (λ d. d ≡ date_of view.now argument.now) }
    ensures valid { IfOk result (λ d. IfSome d IsMailDate) }
{
    let value = value(alloc, view, argument)?;
    Ok(MailDate::read(value.as_str().as_bytes()))
}

/// The seconds from the date of an argument to the moment of the view.
fn age(alloc: Global, view: &View, argument: &Argument) -> Result<i64, AllocError>
    ensures { IfOk result
        (λ n. n ≡ date_number (λ d. held (view.now.moment -ℤ clock_of d)) (date_of view.now argument.now)) }
{
    let date = date(alloc, view, argument)?;
    Ok(dates::age(date, view.moment))
}

/// How many characters a text has.
fn count(alloc: Global, text: &Text) -> Result<i64, AllocError>
    ensures { IfOk result (λ n. n ≡ pos (length text.now)) }
{
    let all = characters(alloc, text)?;
    Ok(all.len() as i64)
}

/// What a function answers.
pub(crate) fn answer(
    alloc: Global,
    view: &View,
    state: &LineState,
    width: Option<Width>,
    function: Function,
    argument: &Argument,
) -> Result<Answer, AllocError>
    ensures { IfOk result (λ a. a ≡ answer_of view.now (seen state.now) width function argument.now) }
{
    match function {
        Function::Msg => Ok(Answer::Number(i64::from(view.number.get()))),
        Function::Size => Ok(Answer::Number(view.message.bytes().len() as i64)),
        Function::Cur => Ok(Answer::Number(truth(view.current))),
        Function::Unseen => Ok(Answer::Number(truth(view.unseen))),
        Function::Width => Ok(Answer::Number(i64::from(state.row.width()))),
        Function::Charleft => Ok(Answer::Number(i64::from(state.row.free()))),
        Function::Timenow => Ok(Answer::Number(view.moment)),
        Function::Me => Ok(Answer::Text(view.user.duplicate(alloc)?)),
        Function::Num => Ok(Answer::Number(number(argument))),
        Function::Lit => Ok(Answer::Text(literal(alloc, argument)?)),
        Function::Eq => Ok(Answer::Number(truth(state.number == number(argument)))),
        Function::Ne => Ok(Answer::Number(truth(state.number != number(argument)))),
        Function::Gt => Ok(Answer::Number(truth(state.number > number(argument)))),
        Function::Plus => Ok(Answer::Number(state.number.saturating_add(number(argument)))),
        Function::Divide => Ok(Answer::Number(quotient(state.number, number(argument)))),
        Function::Modulo => Ok(Answer::Number(remainder(state.number, number(argument)))),
        Function::Match => Ok(Answer::Number(truth(contains(
            state.text.as_str().as_bytes(),
            literal_bytes(argument),
        )))),
        Function::Amatch => Ok(Answer::Number(truth(begins(
            state.text.as_str().as_bytes(),
            literal_bytes(argument),
        )))),
        Function::Strlen => Ok(Answer::Number(count(alloc, &state.text)?)),
        Function::Null => Ok(Answer::Number(truth(is_empty(&state.text)))),
        Function::Nonnull => Ok(Answer::Number(truth(!is_empty(&state.text)))),
        Function::Zero => Ok(Answer::Number(truth(state.number == 0))),
        Function::Nonzero => Ok(Answer::Number(truth(state.number != 0))),
        Function::Void => Ok(Answer::Nothing),
        Function::Comp => Ok(Answer::Text(value(alloc, view, argument)?)),
        Function::Compval => {
            let value = value(alloc, view, argument)?;
            Ok(Answer::Number(leading_number(alloc, &value)?))
        }
        Function::Trim => Ok(Answer::Text(trim(alloc, &state.text)?)),
        Function::Unquote => Ok(Answer::Text(unquote(alloc, &state.text)?)),
        Function::Decode => Ok(Answer::Text(decode_words(alloc, &state.text)?)),
        Function::Putstr => Ok(Answer::PrintText(None)),
        Function::Putstrf => Ok(Answer::PrintText(width)),
        Function::Putnum => Ok(Answer::PrintNumber(None)),
        Function::Putnumf => Ok(Answer::PrintNumber(width)),
        Function::Putlit => Ok(Answer::PrintAll),
        Function::Sec => Ok(Answer::Number(dates::second(date(alloc, view, argument)?))),
        Function::Min => Ok(Answer::Number(dates::minute(date(alloc, view, argument)?))),
        Function::Hour => Ok(Answer::Number(dates::hour(date(alloc, view, argument)?))),
        Function::Mday => Ok(Answer::Number(dates::day(date(alloc, view, argument)?))),
        Function::Mon => Ok(Answer::Number(dates::month(date(alloc, view, argument)?))),
        Function::Year => Ok(Answer::Number(dates::year(date(alloc, view, argument)?))),
        Function::Wday => Ok(Answer::Number(dates::weekday(date(alloc, view, argument)?))),
        Function::Day => {
            let date = date(alloc, view, argument)?;
            Ok(Answer::Text(dates::short_weekday_text(alloc, date)?))
        }
        Function::Weekday => {
            let date = date(alloc, view, argument)?;
            Ok(Answer::Text(dates::weekday_text(alloc, date)?))
        }
        Function::Month => {
            let date = date(alloc, view, argument)?;
            Ok(Answer::Text(dates::short_month_text(alloc, date)?))
        }
        Function::Lmonth => {
            let date = date(alloc, view, argument)?;
            Ok(Answer::Text(dates::month_text(alloc, date)?))
        }
        Function::Tzone => {
            let date = date(alloc, view, argument)?;
            Ok(Answer::Text(dates::zone_shown(alloc, date)?))
        }
        Function::Clock => Ok(Answer::Number(dates::clock(date(alloc, view, argument)?))),
        Function::Rclock => Ok(Answer::Number(age(alloc, view, argument)?)),
        Function::Tws => {
            let date = date(alloc, view, argument)?;
            Ok(Answer::Text(dates::whole_text(alloc, date)?))
        }
        Function::Nodate => Ok(Answer::Number(dates::unreadable(date(alloc, view, argument)?))),
        Function::Friendly => {
            let value = value(alloc, view, argument)?;
            Ok(Answer::Text(addresses::friendly(alloc, &value)?))
        }
        Function::Addr => {
            let value = value(alloc, view, argument)?;
            Ok(Answer::Text(addresses::addr(alloc, &value)?))
        }
        Function::Pers => {
            let value = value(alloc, view, argument)?;
            Ok(Answer::Text(addresses::pers(alloc, &value)?))
        }
        Function::Note => {
            let value = value(alloc, view, argument)?;
            Ok(Answer::Text(addresses::note(alloc, &value)?))
        }
        Function::Mbox => {
            let value = value(alloc, view, argument)?;
            Ok(Answer::Text(addresses::mbox(alloc, &value)?))
        }
        Function::Host => {
            let value = value(alloc, view, argument)?;
            Ok(Answer::Text(addresses::host(alloc, &value)?))
        }
    }
}
