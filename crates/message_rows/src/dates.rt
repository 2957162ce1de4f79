// Dates of mail.
use mail_dates::{MailDate, pick_date};
use mh_base::Bytes;
use row_text::{own, show_line, show_quoted_line, signed, word};
use std::alloc::Global;
use std::test::Fail;

fn show_signed(alloc: Global, n: i64, told: &mut Bytes) -> Result<(), Fail> {
    show_line(told, format!(in alloc; "{n}")?.as_str())
}

fn show_clock(alloc: Global, text: &[u8], told: &mut Bytes) -> Result<(), Fail> {
    match MailDate::read(text) {
        Some(date) => show_signed(alloc, date.clock(), told),
        None => show_line(told, "no date"),
    }
}

fn show_date(alloc: Global, text: &[u8], told: &mut Bytes) -> Result<(), Fail> {
    match MailDate::read(text) {
        Some(date) => show_quoted_line(told, date.tws(alloc)?.as_str().as_bytes()),
        None => show_line(told, "no date"),
    }
}

fn offset(word: &[u8]) -> Result<i32, Fail> {
    Ok(i32::try_from(signed(word)?).ok().ok_or("an offset")?)
}

fn show_moment(alloc: Global, now: i64, offset: i32, told: &mut Bytes) -> Result<(), Fail> {
    if now < 0 || now > 253_402_000_000 || offset < -1439 || offset > 1439 {
        return Err("a moment".into());
    }
    let date = MailDate::at(now, offset);
    show_signed(alloc, date.clock(), told)?;
    show_signed(alloc, i64::from(date.weekday()), told)?;
    show_quoted_line(told, date.tws(alloc)?.as_str().as_bytes())
}

/// Half past midnight of Wednesday, 3 June 2026, on a clock that is two hours ahead.
const NOW: i64 = 1_780_439_400;

fn show_picked(alloc: Global, text: &[u8], told: &mut Bytes) -> Result<(), Fail> {
    let text = own(alloc, text)?;
    match pick_date(&text, NOW, 120) {
        Ok(clock) => show_signed(alloc, clock, told),
        Err(_) => show_line(told, "no date"),
    }
}

pub(crate) fn call(alloc: Global, words: &[Bytes], told: &mut Bytes) -> Result<(), Fail> {
    let given = word(words, 2)?;
    match word(words, 1)? {
        b"clock" => show_clock(alloc, given, told),
        b"show" => show_date(alloc, given, told),
        b"pick" => show_picked(alloc, given, told),
        b"at" => show_moment(alloc, signed(given)?, offset(word(words, 3)?)?, told),
        _ => Err("a call of dates".into()),
    }
}
