// Ten thousand values of From and of Date fields, as many subjects with encoded words, and long texts of beginnings of
// words.
use crate::rates::{micros_since, tell_things};
use mail_dates::MailDate;
use mail_text::{Shown, decode_words};
use mh_base::Text;
use std::alloc::{AllocError, Global};
use std::rt::Clock;
use std::test::Fail;
use std::time::Instant;

const COUNT: u64 = 10_000;

/// Values of a From field, each with a number of its own.
fn address(alloc: Global, number: u64) -> Result<String, AllocError> {
    match number % 4 {
        0 => format!(in alloc; "Ada Lovelace <ada{number}@example.org>"),
        1 => format!(in alloc; "\"Byron, Ada (London)\" <ada.byron{number}@mail.example.org>"),
        2 => format!(in alloc; "ada{number}@example.org (Ada, of the (first) engine)"),
        _ => format!(in alloc; "list-owner+{number}@lists.example.org, bob@example.org"),
    }
}

/// Values of a Date field.
fn date(alloc: Global, number: u64) -> Result<String, AllocError> {
    let day = number % 28 + 1;
    let minute = number % 50 + 10;
    match number % 3 {
        0 => format!(in alloc; "Tue, {day} Jun 2026 10:{minute}:12 +0200"),
        1 => format!(in alloc; "{day} Nov 97 09:{minute} GMT"),
        _ => format!(in alloc; "Thu, {day} Feb 2024 23:{minute}:00 -0330 (Newfoundland Time)"),
    }
}

/// Values of a Subject field.
fn subject(alloc: Global, number: u64) -> Result<String, AllocError> {
    match number % 3 {
        0 => format!(in alloc; "Re: lunch on day {number}, at the place behind the station"),
        1 => format!(in alloc;
            "=?UTF-8?Q?Caf=C3=A9_am_Bahnhof?= =?UTF-8?Q?_um_zw=C3=B6lf?= ({number})"
        ),
        _ => format!(in alloc; "=?ISO-8859-1?B?SWYgeW91IGNhbiByZWFkIHRoaXMgeW8=?= {number}"),
    }
}

fn addresses(alloc: Global) -> Result<Vec<Text>, AllocError> {
    let mut values = Vec::new(alloc);
    for number in 0..COUNT {
        let value = address(alloc, number)?;
        values.push(Text::from_str(alloc, value.as_str())?)?;
    }
    Ok(values)
}

fn has_name(alloc: Global, value: &Text) -> Result<bool, AllocError> {
    let shown = Shown::of_address(alloc, value)?;
    let name = shown.friendly(alloc)?;
    Ok(!name.as_str().is_empty())
}

/// How many of the addresses have a friendly name.
fn count_named(alloc: Global, values: &[Text]) -> Result<u64, AllocError> {
    let mut named: u64 = 0;
    for value in values {
        if has_name(alloc, value)? {
            named = named.wrapping_add(1);
        }
    }
    Ok(named)
}

fn measure_addresses(rt: &(impl Print + Clock), alloc: Global) -> Result<(), Fail> {
    let values = addresses(alloc)?;
    let start = Instant::now(rt)?;
    let named = count_named(alloc, values.as_slice())?;
    let taken = micros_since(rt, start)?;
    tell_things(rt, "addresses", COUNT, taken, named)
}

fn dates(alloc: Global) -> Result<Vec<String>, AllocError> {
    let mut values = Vec::new(alloc);
    for number in 0..COUNT {
        values.push(date(alloc, number)?)?;
    }
    Ok(values)
}

/// How many of the texts are dates.
fn count_dates(values: &[String]) -> u64 {
    let mut read: u64 = 0;
    for value in values {
        if MailDate::read(value.as_bytes()).is_some() {
            read = read.wrapping_add(1);
        }
    }
    read
}

fn measure_dates(rt: &(impl Print + Clock), alloc: Global) -> Result<(), Fail> {
    let values = dates(alloc)?;
    let start = Instant::now(rt)?;
    let read = count_dates(values.as_slice());
    let taken = micros_since(rt, start)?;
    tell_things(rt, "dates", COUNT, taken, read)
}

fn subjects(alloc: Global) -> Result<Vec<Text>, AllocError> {
    let mut values = Vec::new(alloc);
    for number in 0..COUNT {
        let value = subject(alloc, number)?;
        values.push(Text::from_str(alloc, value.as_str())?)?;
    }
    Ok(values)
}

/// How many bytes the decoded texts have.
fn count_decoded(alloc: Global, values: &[Text]) -> Result<u64, AllocError> {
    let mut bytes: u64 = 0;
    for value in values {
        let line = decode_words(alloc, value)?;
        bytes = bytes.wrapping_add(line.as_str().len() as u64);
    }
    Ok(bytes)
}

fn measure_subjects(rt: &(impl Print + Clock), alloc: Global) -> Result<(), Fail> {
    let values = subjects(alloc)?;
    let start = Instant::now(rt)?;
    let bytes = count_decoded(alloc, values.as_slice())?;
    let taken = micros_since(rt, start)?;
    tell_things(rt, "subjects, and their bytes", COUNT, taken, bytes)
}

/// A long run of beginnings of words, none of which ends, of so many characters.
fn beginnings(alloc: Global, count: usize) -> Result<Text, AllocError> {
    let mut text = String::new(alloc);
    for _ in 0..count / 10 {
        text.push_str("=?UTF-8?Q?")?;
    }
    Text::from_str(alloc, text.as_str())
}

fn measure_beginnings(rt: &(impl Print + Clock), alloc: Global, count: usize) -> Result<(), Fail> {
    let text = beginnings(alloc, count)?;
    let start = Instant::now(rt)?;
    let line = decode_words(alloc, &text)?;
    let taken = micros_since(rt, start)?;
    let left = line.as_str().len();
    println!(rt; "{left} characters of beginnings without an end: {taken} microseconds")?;
    Ok(())
}

pub fn measure(rt: &(impl Print + Clock), alloc: Global) -> Result<(), Fail> {
    measure_addresses(rt, alloc)?;
    measure_dates(rt, alloc)?;
    measure_subjects(rt, alloc)?;
    measure_beginnings(rt, alloc, 100_000)?;
    measure_beginnings(rt, alloc, 1_000_000)
}
