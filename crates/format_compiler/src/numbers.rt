// Whole numbers, as they are written.
ghost use Rattle.std.specs.Prelude.{◌≡◌, ◌≤◌, ◌<◌, [], ◌∷◌, length, IfOk, IfSome};
ghost use Rattle.format_compiler.specs.Arguments.{decimal_within, number_of, some_decimal_within, spaced_number_in};
ghost use Rattle.format_compiler.specs.Outcomes.{Gives};
ghost use Rattle.mh_base.specs.Characters.{is_digit as is_a_digit};

use crate::literals::spaced_literal;
use crate::stop::Stop;
use crate::widths::{is_digit, value};

/// The number that one more digit makes of this one.
fn with_digit(limit: u64, number: u64, c: char) -> Option<u64>
    ensures value { result ≡ decimal_within limit number (c ∷ []) }
    ensures small { IfSome result (λ n. n ≤ limit) }
{
    let longer = number as u128 * 10 + value(c) as u128;
    if is_digit(c) && longer <= limit as u128 {
        Some(longer as u64)
    } else {
        None
    }
}

/// The number that digits write, if it is at most the limit.
fn decimal(limit: u64, digits: &[char]) -> Option<u64>
    ensures value { result ≡ decimal_within limit 0 digits.now }
    ensures small { IfSome result (λ n. n ≤ limit) }
{
    let mut number = 0;
    let mut rest = digits;
    while let Some((c, behind)) = rest.split_first() {
        number = with_digit(limit, number, *c)?;
        rest = behind;
    }
    Some(number)
}

fn some_decimal(limit: u64, digits: &[char]) -> Option<u64>
    ensures value { result ≡ some_decimal_within limit digits.now }
    ensures small { IfSome result (λ n. n ≤ limit) }
{
    if digits.is_empty() {
        return None;
    }
    decimal(limit, digits)
}

/// The whole number that a text is.
fn number(text: &[char]) -> Option<i64>
    ensures { result ≡ number_of text.now }
{
    match text.split_first() {
        None => None,
        Some(('-', digits)) => {
            let number = some_decimal(1 << 63, digits)?;
            Some((-(number as i128)) as i64)
        }
        Some(_) => {
            let number = some_decimal((1 << 63) - 1, text)?;
            Some(number as i64)
        }
    }
}

/// The number behind one space, and what stands behind its parenthesis.
pub(crate) fn spaced_number<'a>(text: &'a [char]) -> Result<(i64, &'a [char]), Stop<'a>>
    ensures given { Gives (λ x. (x.0, x.1.now)) result (spaced_number_in text.now) }
    ensures shorter { IfOk result (λ x. length x.1.now < length text.now) }
{
    let (literal, behind) = spaced_literal(text)?;
    match number(literal) {
        Some(number) => Ok((number, behind)),
        None => Err(Stop::Wrong(text)),
    }
}
