// Widths, as they are written.
ghost use Rattle.std.specs.Prelude.{◌≡◌, ◌≤◌, length};
ghost use Rattle.std.specs.List.{prefix_len};
ghost use Rattle.format_compiler.specs.Widths.{begins_width as begins_a_width, columns_by, digit_value, width_of};
ghost use Rattle.mh_base.specs.Characters.{is_digit as is_a_digit};

use crate::Width;

pub(crate) fn is_digit(c: char) -> bool
    ensures { result ≡ is_a_digit c }
{
    '0' <= c && c <= '9'
}

/// The value of a digit, and 0 of another character.
pub(crate) fn value(c: char) -> u16
    ensures value { result ≡ digit_value c }
    ensures small { result ≤ 9 }
{
    if is_digit(c) { c as u16 - 48 } else { 0 }
}

/// How many digits stand at the front.
pub(crate) fn digits_len(text: &[char]) -> usize
    ensures value { result ≡ prefix_len is_a_digit text.now }
    ensures inside { result ≤ length text.now }
{
    text.iter().take_while(|c| is_digit(**c)).count()
}

fn columns(first: char, columns: u16) -> Option<Option<Width>>
    ensures { result ≡ columns_by first columns }
{
    if columns == 0 {
        return None;
    }
    Some(Some(Width {
        columns,
        zeros: first == '0',
    }))
}

/// The width that digits write.
pub(crate) fn width(digits: &[char]) -> Option<Option<Width>>
    ensures { result ≡ width_of digits.now }
{
    match digits {
        [] => Some(None),
        [a] => columns(*a, value(*a)),
        [a, b] => columns(*a, value(*a) * 10 + value(*b)),
        [a, b, c] => columns(*a, (value(*a) * 10 + value(*b)) * 10 + value(*c)),
        _ => None,
    }
}

/// Whether a width begins with these digits.
pub(crate) fn begins_width(digits: &[char]) -> bool
    ensures { result ≡ begins_a_width digits.now }
{
    digits.len() < 3 || width(digits).is_some()
}
