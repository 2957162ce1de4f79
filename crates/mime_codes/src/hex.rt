// Hexadecimal digits.
ghost use Rattle.std.specs.Prelude.{◌≡◌, ◌<◌, IfSome};
ghost use Rattle.mime_codes.specs.Hexadecimal.{hex_value, hex_digit, escaped_byte};

fn digit_value(digit: u8) -> Option<u8>
    ensures value { result ≡ hex_value digit }
    ensures small { IfSome result (λ v. v < 16) }
{
    match digit {
        b'0'..=b'9' => Some(digit - b'0'),
        b'A'..=b'F' => Some(digit - b'A' + 10),
        b'a'..=b'f' => Some(digit - b'a' + 10),
        _ => None,
    }
}

/// The byte for which two digits at the front stand.
pub(crate) fn escaped(text: &[u8]) -> Option<u8>
    ensures { result ≡ escaped_byte text.now }
{
    let (high, rest) = text.split_first()?;
    let (low, _) = rest.split_first()?;
    Some(16 * digit_value(*high)? + digit_value(*low)?)
}

/// The digit of a number, in upper case.
pub(crate) fn digit(number: u8) -> u8
    requires { number < 16 }
    ensures { result ≡ hex_digit number }
{
    if number < 10 {
        b'0' + number
    } else {
        b'A' + (number - 10)
    }
}
