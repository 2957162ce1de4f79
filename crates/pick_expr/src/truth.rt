// Of which messages expressions hold.
ghost use Rattle.std.specs.Prelude.{◌≡◌, ◌↔◌, ◌&&◌, ◌||◌, IfOk, IsTrue};
ghost use Rattle.std.specs.List.{list_any};
ghost use Rattle.mail_dates.specs.Reading.{date_in};
ghost use Rattle.mail_headers.specs.Fields.{fields_of, first_value, same_name};
ghost use Rattle.mail_headers.specs.Message.{body_of};
ghost use Rattle.mail_headers.specs.Unfolding.{unfolded};
ghost use Rattle.mail_headers.specs.View.{field_text};
ghost use Rattle.pick_expr.specs.Finishing.{is_match};
ghost use Rattle.pick_expr.specs.Grammar.{IsExpression, Tree};
ghost use Rattle.pick_expr.specs.Picks.{picks};
ghost use Rattle.pick_expr.specs.Truth.{date_of, field_line, Holds, lines_of};
ghost use Rattle.pick_expr.specs.Values.{clock_of_date, fields_match, is_after, is_before, some_line, test_value};

use crate::lines::matches_line;
use crate::shortened::words_value;
use crate::{Expr, Pattern, Test};
use mail_dates::MailDate;
use mail_headers::{Field, Message, unfold};
use mh_base::Bytes;
use std::alloc::{AllocError, Global};

fn value_matches(alloc: Global, pattern: &Pattern, value: &[u8]) -> Result<bool, AllocError>
    ensures { IfOk result (λ r. r ≡ is_match pattern.now (unfolded value.now)) }
{
    let text = unfold(alloc, value)?;
    Ok(pattern.matches(text.as_slice()))
}

fn named_matches(
    alloc: Global,
    name: &[u8],
    pattern: &Pattern,
    field: Field<'_>,
) -> Result<bool, AllocError>
    ensures { IfOk result (λ r. r ≡ (same_name field.entry.name.now name.now
        && is_match pattern.now (unfolded field.entry.value.now))) }
{
    if field.name.eq_ignore_ascii_case(name) {
        value_matches(alloc, pattern, field.value)
    } else {
        Ok(false)
    }
}

fn some_field_matches(
    alloc: Global,
    name: &[u8],
    pattern: &Pattern,
    message: &Message<'_>,
) -> Result<bool, AllocError>
    ensures { IfOk result (λ r. r ≡ fields_match name.now pattern.now (fields_of message.now)) }
{
    for field in message.fields() {
        if named_matches(alloc, name, pattern, field)? {
            return Ok(true);
        }
    }
    Ok(false)
}

/// A field as one line.
fn shown_line(alloc: Global, field: Field<'_>) -> Result<Bytes, AllocError>
    ensures { IfOk result (λ v. v ≡ field_line (field_text field.entry)) }
{
    let mut line = Bytes::from_slice(alloc, field.name)?;
    line.extend(b": ")?;
    let value = unfold(alloc, field.value)?;
    line.extend(value.as_slice())?;
    Ok(line)
}

fn line_matches(alloc: Global, pattern: &Pattern, field: Field<'_>) -> Result<bool, AllocError>
    ensures { IfOk result (λ r. r ≡ is_match pattern.now (field_line (field_text field.entry))) }
{
    let line = shown_line(alloc, field)?;
    Ok(pattern.matches(line.as_slice()))
}

fn some_field_line_matches(
    alloc: Global,
    pattern: &Pattern,
    message: &Message<'_>,
) -> Result<bool, AllocError>
    ensures { IfOk result (λ r. r ≡ some_line pattern.now (fields_of message.now)) }
{
    for field in message.fields() {
        if line_matches(alloc, pattern, field)? {
            return Ok(true);
        }
    }
    Ok(false)
}

/// The clock of the date in the first field of this name.
fn clock_in_field(
    alloc: Global,
    field: &[u8],
    message: &Message<'_>,
) -> Result<Option<i64>, AllocError>
    ensures { IfOk result (λ c. c ≡ clock_of_date (date_of (first_value field.now (fields_of message.now)))) }
{
    match message.first(field) {
        Some(value) => {
            let value = unfold(alloc, value)?;
            Ok(clock_of_text(value.as_slice()))
        }
        None => Ok(None),
    }
}

fn clock_of_text(text: &[u8]) -> Option<i64>
    ensures { result ≡ clock_of_date (date_in text.now) }
{
    match MailDate::read(text) {
        Some(date) => Some(date.clock()),
        None => None,
    }
}

fn is_before_clock(found: Option<i64>, clock: i64) -> bool
    ensures { result ≡ is_before clock found }
{
    match found {
        Some(found) => found < clock,
        None => false,
    }
}

fn is_after_clock(found: Option<i64>, clock: i64) -> bool
    ensures { result ≡ is_after clock found }
{
    match found {
        Some(found) => clock < found,
        None => false,
    }
}

fn search_matches(
    alloc: Global,
    pattern: &Pattern,
    message: &Message<'_>,
) -> Result<bool, AllocError>
    ensures { IfOk result (λ r. r ≡ (some_line pattern.now (fields_of message.now)
        || list_any (is_match pattern.now) (lines_of (body_of message.now)))) }
{
    if some_field_line_matches(alloc, pattern, message)? {
        return Ok(true);
    }
    Ok(matches_line(pattern, message.body()))
}

fn before_holds(
    alloc: Global,
    field: &[u8],
    clock: i64,
    message: &Message<'_>,
) -> Result<bool, AllocError>
    ensures { IfOk result (λ r. r
        ≡ is_before clock (clock_of_date (date_of (first_value field.now (fields_of message.now))))) }
{
    let found = clock_in_field(alloc, field, message)?;
    Ok(is_before_clock(found, clock))
}

fn after_holds(
    alloc: Global,
    field: &[u8],
    clock: i64,
    message: &Message<'_>,
) -> Result<bool, AllocError>
    ensures { IfOk result (λ r. r
        ≡ is_after clock (clock_of_date (date_of (first_value field.now (fields_of message.now))))) }
{
    let found = clock_in_field(alloc, field, message)?;
    Ok(is_after_clock(found, clock))
}

/// Whether a test holds of a message.
pub(crate) fn test_holds(
    alloc: Global,
    test: &Test,
    message: &Message<'_>,
) -> Result<bool, AllocError>
    ensures { IfOk result (λ r. r ≡ test_value test.now message.now) }
{
    match test {
        Test::Field { name, pattern } => some_field_matches(
            alloc,
            name.as_slice(),
            pattern,
            message,
        ),
        Test::Search(pattern) => search_matches(alloc, pattern, message),
        Test::Before { field, clock } => before_holds(alloc, field.as_slice(), *clock, message),
        Test::After { field, clock } => after_holds(alloc, field.as_slice(), *clock, message),
    }
}

/// Whether the expression holds of the message.
pub fn holds(alloc: Global, expr: &Expr, message: &[u8]) -> Result<bool, AllocError>
    ensures tree { (e : Tree) → IsExpression expr.now.words e → IfOk result (λ r. IsTrue r ↔ Holds e message.now) }
    ensures value { IfOk result (λ r. r ≡ picks expr.now message.now) }
{
    words_value(alloc, expr.words.as_slice(), &Message::cut(message))
}
