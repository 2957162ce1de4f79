// Literals and numbers, as they are written.
ghost use Rattle.std.specs.Prelude.{◌≡◌, ◌≤◌, ◌<◌, ◌++◌, length, IfOk, OnOk};
ghost use Rattle.std.specs.List.{prefix_len};
ghost use Rattle.format_compiler.specs.Arguments.{decimal_within, is_literal, literal_in, number_of, some_decimal_within, spaced_literal_in, spaced_number_in};
ghost use Rattle.format_compiler.specs.Outcomes.{Gives};

use crate::stop::Stop;
use crate::widths::value;
use mh_base::Text;
use std::alloc::{AllocError, Global};

fn put(text: &mut Text, characters: &[char]) -> Result<(), AllocError>
    ensures { OnOk result (text.new ≡ text.old ++ characters.now) }
{
    for c in characters {
        text.push(*c)?;
    }
    Ok(())
}

/// The text of these characters.
pub(crate) fn text_of(alloc: Global, characters: &[char]) -> Result<Text, AllocError>
    ensures { IfOk result (λ text. text ≡ characters.now) }
{
    let mut text = Text::new(alloc);
    put(&mut text, characters)?;
    Ok(text)
}

fn literal_len(text: &[char]) -> usize
    ensures value { result ≡ prefix_len is_literal text.now }
    ensures inside { result ≤ length text.now }
{
    text.iter().take_while(|c| **c != ')').count()
}

/// The characters up to a closing parenthesis, and what stands behind it.
fn literal<'a>(text: &'a [char]) -> Result<(&'a [char], &'a [char]), Stop<'a>>
    ensures given { Gives (λ x. (x.0.now, x.1.now)) result (literal_in text.now) }
    ensures shorter { IfOk result (λ x. length x.1.now < length text.now) }
{
    let (literal, from_end) = text.split_at(literal_len(text));
    match from_end.split_first() {
        None => Err(Stop::Wrong(&[])),
        Some((')', behind)) => Ok((literal, behind)),
        Some(_) => Err(Stop::Wrong(from_end)),
    }
}

/// The same behind one space.
pub(crate) fn spaced_literal<'a>(text: &'a [char]) -> Result<(&'a [char], &'a [char]), Stop<'a>>
    ensures given { Gives (λ x. (x.0.now, x.1.now)) result (spaced_literal_in text.now) }
    ensures shorter { IfOk result (λ x. length x.1.now < length text.now) }
{
    match text.split_first() {
        None => Err(Stop::Wrong(&[])),
        Some((' ', text)) => literal(text),
        Some(_) => Err(Stop::Wrong(text)),
    }
}
