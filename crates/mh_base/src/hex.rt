// Run numbers as 32 lower-case hexadecimal digits.
ghost use Rattle.std.specs.Prelude.{◌≡◌, ◌<◌, false};
ghost use Rattle.std.specs.Fmt.{digit_glyph};
ghost use Rattle.mh_base.specs.Numbers.{hex, run_of};

use std::str;

fn hex_digit(digit: u8) -> u8
    requires { digit < 16 }
    ensures { result ≡ digit_glyph false digit }
{
    if digit < 10 {
        b'0' + digit
    } else {
        b'a' + (digit - 10)
    }
}

/// The 32 digits of a run number.
pub(crate) fn run_digits(run: u128) -> [u8; 32]
    ensures { result ≡ hex 32 run }
{
    let mut digits = [b'0'; 32];
    let mut rest = run;
    let mut at = 32;
    while at > 0 {
        at -= 1;
        digits[at] = hex_digit((rest % 16) as u8);
        rest /= 16;
    }
    digits
}

/// The run number with these 32 digits.
pub(crate) fn read_run(bytes: &[u8]) -> Option<u128>
    ensures { result ≡ run_of bytes.now }
{
    let Ok(text) = str::from_utf8(bytes) else {
        return None;
    };
    let Ok(run) = u128::from_str_radix(text, 16) else {
        return None;
    };
    let digits = run_digits(run);
    if digits.as_slice() == bytes {
        Some(run)
    } else {
        None
    }
}
