// A date as it is shown.
ghost use Rattle.std.specs.Prelude.{◌≡◌, ◌<◌, ◌≤◌, ◌∷◌, ◌++◌, [], pos, unsigned_abs, IfOk, OnOk};
ghost use Rattle.jiff.specs.Words.{IsBetween, IsWithin};
ghost use Rattle.mail_dates.specs.Clocks.{IsMailDate};
ghost use Rattle.mail_dates.specs.Shown.{weekday_name, month_name, two as two_digits, four as four_digits, sign_of, zone_text, tws_of};

use crate::MailDate;
use mh_base::Text;
use std::alloc::{AllocError, Global};

fn weekday_letters(weekday: u8) -> (u8, u8, u8)
    ensures { result.0 ∷ result.1 ∷ result.2 ∷ [] ≡ weekday_name weekday }
{
    if weekday == 0 {
        (b'S', b'u', b'n')
    } else if weekday == 1 {
        (b'M', b'o', b'n')
    } else if weekday == 2 {
        (b'T', b'u', b'e')
    } else if weekday == 3 {
        (b'W', b'e', b'd')
    } else if weekday == 4 {
        (b'T', b'h', b'u')
    } else if weekday == 5 {
        (b'F', b'r', b'i')
    } else {
        (b'S', b'a', b't')
    }
}

fn month_letters(month: u8) -> (u8, u8, u8)
    ensures { result.0 ∷ result.1 ∷ result.2 ∷ [] ≡ month_name month }
{
    if month == 1 {
        (b'J', b'a', b'n')
    } else if month == 2 {
        (b'F', b'e', b'b')
    } else if month == 3 {
        (b'M', b'a', b'r')
    } else if month == 4 {
        (b'A', b'p', b'r')
    } else if month == 5 {
        (b'M', b'a', b'y')
    } else if month == 6 {
        (b'J', b'u', b'n')
    } else if month == 7 {
        (b'J', b'u', b'l')
    } else if month == 8 {
        (b'A', b'u', b'g')
    } else if month == 9 {
        (b'S', b'e', b'p')
    } else if month == 10 {
        (b'O', b'c', b't')
    } else if month == 11 {
        (b'N', b'o', b'v')
    } else {
        (b'D', b'e', b'c')
    }
}

fn two(number: u16) -> (u8, u8)
    requires { number < 100 }
    ensures { result.0 ∷ result.1 ∷ [] ≡ two_digits number }
{
    (b'0' + (number / 10) as u8, b'0' + (number % 10) as u8)
}

fn small_two(number: i8) -> (u8, u8)
    requires { IsBetween (pos 0) (pos 99) number }
    ensures { result.0 ∷ result.1 ∷ [] ≡ two_digits (unsigned_abs number) }
{
    two(u16::from(number.unsigned_abs()))
}

fn sign(offset: i16) -> u8
    ensures { result ∷ [] ≡ sign_of offset }
{
    if offset < 0 { b'-' } else { b'+' }
}

fn push_all(text: &mut Text, bytes: &[u8]) -> Result<(), AllocError>
    ensures { OnOk result (text.new ≡ text.old ++ bytes.now) }
{
    for byte in bytes {
        text.push(char::from(*byte))?;
    }
    Ok(())
}

impl MailDate {
    fn line(&self) -> [u8; 31]
        requires { IsMailDate self.now }
        ensures { result ≡ tws_of self.now }
    {
        let (w1, w2, w3) = weekday_letters(self.weekday());
        let (d1, d2) = small_two(self.day);
        let (m1, m2, m3) = month_letters(self.month.unsigned_abs());
        let year = self.year.unsigned_abs();
        let (y1, y2) = two(year / 100);
        let (y3, y4) = two(year % 100);
        let (h1, h2) = small_two(self.hour);
        let (i1, i2) = small_two(self.minute);
        let (s1, s2) = small_two(self.second);
        let offset = self.offset.unsigned_abs();
        let (z1, z2) = two(offset / 60);
        let (z3, z4) = two(offset % 60);
        let sign = sign(self.offset);
        [
            w1, w2, w3, b',', b' ', d1, d2, b' ', m1, m2, m3, b' ', y1, y2, y3, y4, b' ', h1, h2,
            b':', i1, i2, b':', s1, s2, b' ', sign, z1, z2, z3, z4,
        ]
    }

    /// The date as in `Tue, 02 Jun 2026 10:00:00 +0000`.
    pub fn tws(&self, alloc: Global) -> Result<Text, AllocError>
        requires { IsMailDate self.now }
        ensures { IfOk result (λ text. text ≡ tws_of self.now) }
    {
        let mut text = Text::new(alloc);
        push_all(&mut text, &self.line())?;
        Ok(text)
    }
}
