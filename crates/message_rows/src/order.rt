// The order of messages.
use message_order::{filled_dates, in_order, subject_key, text_key};
use mh_base::{Bytes, MsgNum};
use row_text::{from, number, show_line, show_number, show_quoted_line, signed, text, word};
use std::alloc::Global;
use std::test::Fail;

fn show_text(alloc: Global, given: &[u8], told: &mut Bytes) -> Result<(), Fail> {
    show_quoted_line(told, text_key(alloc, given)?.as_slice())
}

fn show_subject(alloc: Global, given: &[u8], told: &mut Bytes) -> Result<(), Fail> {
    show_quoted_line(told, subject_key(alloc, given)?.as_slice())
}

/// Seconds, or `-` where there is no date.
fn date(word: &[u8]) -> Result<Option<i64>, Fail> {
    if word == b"-".as_slice() {
        Ok(None)
    } else {
        Ok(Some(signed(word)?))
    }
}

fn dates(alloc: Global, words: &[Bytes]) -> Result<Vec<Option<i64>>, Fail> {
    let mut dates = Vec::new(alloc);
    for word in words {
        dates.push(date(word.as_slice())?)?;
    }
    Ok(dates)
}

fn show_date(alloc: Global, date: Option<i64>, told: &mut Bytes) -> Result<(), Fail> {
    match date {
        Some(clock) => show_line(told, format!(in alloc; "{clock}")?.as_str()),
        None => show_line(told, "-"),
    }
}

fn show_dates(alloc: Global, words: &[Bytes], told: &mut Bytes) -> Result<(), Fail> {
    let given = dates(alloc, words)?;
    for date in &filled_dates(alloc, given.as_slice())? {
        show_date(alloc, *date, told)?;
    }
    Ok(())
}

fn message(word: &[u8]) -> Result<MsgNum, Fail> {
    let n = u32::try_from(number(word)?).ok().ok_or("a number")?;
    Ok(MsgNum::new(n).ok_or("a message's number")?)
}

/// `number=text` is a message and the text in its field.
fn keyed(alloc: Global, word: &[u8]) -> Result<(Vec<u8>, MsgNum), Fail> {
    let (n, value) = text(word)?.split_once('=').ok_or("a key")?;
    let key = text_key(alloc, value.as_bytes())?;
    Ok((key, message(n.as_bytes())?))
}

fn all_keyed(alloc: Global, words: &[Bytes]) -> Result<Vec<(Vec<u8>, MsgNum)>, Fail> {
    let mut all = Vec::new(alloc);
    for word in words {
        all.push(keyed(alloc, word.as_slice())?)?;
    }
    Ok(all)
}

fn show_order(alloc: Global, words: &[Bytes], told: &mut Bytes) -> Result<(), Fail> {
    let all = all_keyed(alloc, words)?;
    for n in &in_order(alloc, all)? {
        show_number(alloc, told, u64::from(n.get()))?;
    }
    Ok(())
}

pub(crate) fn call(alloc: Global, words: &[Bytes], told: &mut Bytes) -> Result<(), Fail> {
    match word(words, 1)? {
        b"text" => show_text(alloc, word(words, 2)?, told),
        b"subject" => show_subject(alloc, word(words, 2)?, told),
        b"dates" => show_dates(alloc, from(words, 2), told),
        b"messages" => show_order(alloc, from(words, 2), told),
        _ => Err("a call of order".into()),
    }
}
