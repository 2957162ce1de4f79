// Offsets from UTC.

fn digit(byte: u8) -> Option<i32> {
    match byte {
        b'0'..=b'9' => Some(i32::from(byte - b'0')),
        _ => None,
    }
}

/// The number of two digits.
fn pair(tens: u8, ones: u8) -> Option<i32> {
    Some(digit(tens)?.wrapping_mul(10).wrapping_add(digit(ones)?))
}

fn minutes(hours: i32, minutes: i32) -> i32 {
    hours.wrapping_mul(60).wrapping_add(minutes)
}

/// The minutes of an offset that is written `+hhmm` or `-hhmm`; another text is none.
pub fn read_offset(text: &str) -> Option<i32> {
    match text.as_bytes() {
        [b'+', a, b, c, d] => Some(minutes(pair(*a, *b)?, pair(*c, *d)?)),
        [b'-', a, b, c, d] => Some(0i32.wrapping_sub(minutes(pair(*a, *b)?, pair(*c, *d)?))),
        _ => None,
    }
}
