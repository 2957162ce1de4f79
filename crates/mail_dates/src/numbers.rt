// Numbers in words.
ghost use Rattle.std.specs.Prelude.{◌≡◌, ◌<◌, ◌≤◌, length, MatchOption, IfSome, Some, None};
ghost use Rattle.mail_dates.specs.Numbers.{digit_of, decimal as decimal_of, short_lead as short_lead_of, short_number as short_number_of, year_by as year_of, year_in, IsYear};

pub(crate) fn digit(byte: u8) -> Option<u8>
    ensures value { result ≡ digit_of byte }
    ensures small { IfSome result (λ d. d < 10) }
{
    match byte {
        b'0'..=b'9' => Some(byte - b'0'),
        _ => None,
    }
}

/// The number of at most four digits.
pub(crate) fn decimal(word: &[u8]) -> Option<u16>
    requires { length word.now ≤ 4 }
    ensures value { result ≡ decimal_of word.now }
    ensures small { IfSome result (λ n. n < 10000) }
    ensures two { IfSome result (λ n. length word.now ≤ 2 → n < 100) }
    ensures three { IfSome result (λ n. length word.now ≤ 3 → n < 1000) }
{
    let mut number = 0u16;
    for byte in word {
        match digit(*byte) {
            Some(d) => number = 10 * number + u16::from(d),
            None => return None,
        }
    }
    Some(number)
}

/// The number of one or two digits with which a text begins, and what stands behind it.
pub(crate) fn short_lead(text: &[u8]) -> Option<(u8, &[u8])>
    ensures value { MatchOption result (short_lead_of text.now ≡ None)
        (λ r. short_lead_of text.now ≡ Some (record { value = r.0; rest = r.1.now })) }
    ensures small { IfSome result (λ r. r.0 < 100) }
{
    let (first, behind) = text.split_first()?;
    let high = digit(*first)?;
    let Some((second, rest)) = behind.split_first() else {
        return Some((high, behind));
    };
    match digit(*second) {
        Some(low) => Some((10 * high + low, rest)),
        None => Some((high, behind)),
    }
}

pub(crate) fn short_number(word: &[u8]) -> Option<u8>
    ensures value { result ≡ short_number_of word.now }
    ensures small { IfSome result (λ n. n < 100) }
{
    let (number, rest) = short_lead(word)?;
    if rest.is_empty() { Some(number) } else { None }
}

pub(crate) fn year_by(len: usize, number: u16) -> Option<u16>
    requires two { len ≤ 2 → number < 100 }
    requires three { len ≤ 3 → number < 1000 }
    requires all { number < 10000 }
    ensures value { result ≡ year_of len (Some number) }
    ensures range { IfSome result IsYear }
{
    if len == 2 {
        Some(if number < 50 {
            number + 2000
        } else {
            number + 1900
        })
    } else if len == 3 {
        Some(number + 1900)
    } else if len == 4 && number >= 1900 {
        Some(number)
    } else {
        None
    }
}

/// The year of a header's date.
pub(crate) fn year(word: &[u8]) -> Option<u16>
    ensures value { result ≡ year_in word.now }
    ensures range { IfSome result IsYear }
{
    if word.len() > 4 {
        return None;
    }
    year_by(word.len(), decimal(word)?)
}
