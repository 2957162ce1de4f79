// Drops, whole and in pieces.
use mbox_drop::{CutFault, DropCounter, DropCutter, MailDrop};
use mh_base::Bytes;
use row_text::{from, show_line, show_number, show_quoted, word};
use std::alloc::Global;
use std::test::Fail;

fn show_message(message: &[u8], told: &mut Bytes) -> Result<(), Fail> {
    told.extend(b" ")?;
    show_quoted(told, message)
}

fn show_whole(bytes: &[u8], told: &mut Bytes) -> Result<(), Fail> {
    let Ok(drop) = MailDrop::cut(bytes) else {
        return show_line(told, "whole: no drop");
    };
    told.extend(b"whole:")?;
    for message in drop.messages() {
        show_message(message, told)?;
    }
    show_line(told, "")
}

fn show_count(alloc: Global, bytes: &[u8], told: &mut Bytes) -> Result<(), Fail> {
    let mut counter = DropCounter::new();
    counter.feed(bytes);
    match counter.end() {
        Ok(count) => show_line(told, format!(in alloc; "counted: {count}")?.as_str()),
        Err(_) => show_line(told, "counted: no drop"),
    }
}

/// The messages that a cutter gave, and the last.
fn with_last(cutter: DropCutter, given: Vec<Bytes>) -> Result<Vec<Bytes>, CutFault> {
    let mut all = given;
    if let Some(message) = cutter.end()? {
        all.push(message).map_err(|_| CutFault::Memory)?;
    }
    Ok(all)
}

/// The messages of these pieces.
fn cut_in(alloc: Global, pieces: &[&[u8]]) -> Result<Vec<Bytes>, CutFault> {
    let mut cutter = DropCutter::new(alloc);
    let mut all = Vec::new(alloc);
    for piece in pieces {
        let mut given = cutter.feed(piece)?.into_vec();
        all.append(&mut given).map_err(|_| CutFault::Memory)?;
    }
    with_last(cutter, all)
}

fn show_messages(messages: &[Bytes], told: &mut Bytes) -> Result<(), Fail> {
    for message in messages {
        show_message(message.as_slice(), told)?;
    }
    show_line(told, "")
}

fn show_cut(cut: Result<Vec<Bytes>, CutFault>, told: &mut Bytes) -> Result<(), Fail> {
    match cut {
        Ok(messages) => show_messages(messages.as_slice(), told),
        Err(CutFault::NotADrop) => show_line(told, " no drop"),
        Err(_) => show_line(told, " another fault"),
    }
}

fn single<'a>(alloc: Global, bytes: &'a [u8]) -> Result<Vec<&'a [u8]>, Fail> {
    let mut single = Vec::new(alloc);
    for byte in bytes.chunks(1) {
        single.push(byte)?;
    }
    Ok(single)
}

/// How many messages are counted, and which there are in the bytes as a whole, fed together and fed one by one.
fn read(alloc: Global, bytes: &[u8], told: &mut Bytes) -> Result<(), Fail> {
    show_count(alloc, bytes, told)?;
    show_whole(bytes, told)?;
    told.extend(b"together:")?;
    show_cut(cut_in(alloc, &[bytes]), told)?;
    told.extend(b"one by one:")?;
    show_cut(cut_in(alloc, single(alloc, bytes)?.as_slice()), told)
}

/// Whether the pieces give these messages.
fn gives(alloc: Global, pieces: &[&[u8]], wanted: &[Bytes]) -> Result<bool, Fail> {
    let cut = cut_in(alloc, pieces)?;
    Ok(
        cut.len() == wanted.len()
            && cut
                .iter()
                .zip(wanted)
                .all(|(message, one)| message.as_slice() == one.as_slice()),
    )
}

/// How many cuts of the bytes before the last piece give other messages, with one more piece or none.
fn others_before(alloc: Global, before: &[u8], last: &[u8], wanted: &[Bytes]) -> Result<u64, Fail> {
    let mut others = u64::from(!gives(alloc, &[before, last], wanted)?);
    for first in 0..before.len() {
        let (start, middle) = before.split_at(first);
        let other = !gives(alloc, &[start, middle, last], wanted)?;
        others = others.saturating_add(u64::from(other));
    }
    Ok(others)
}

/// How many cuts of the bytes into two and into three pieces give other messages than the whole.
fn every_cut(alloc: Global, bytes: &[u8], told: &mut Bytes) -> Result<(), Fail> {
    let wanted = cut_in(alloc, &[bytes])?;
    let mut others: u64 = 0;
    for second in 0..bytes.len() {
        let (before, last) = bytes.split_at(second);
        others = others.saturating_add(others_before(alloc, before, last, wanted.as_slice())?);
    }
    show_number(alloc, told, others)?;
    show_line(told, " cuts give other messages")
}

/// A cutter and a counter that are fed the same.
#[derive(Drop)]
struct Fed {
    cutter: DropCutter,
    counter: DropCounter,
    given: u64,
}

impl Fed {
    fn piece(&mut self, piece: &[u8]) -> Result<(), CutFault> {
        self.counter.feed(piece);
        let given = self.cutter.feed(piece)?.len() as u64;
        self.given = self.given.saturating_add(given);
        Ok(())
    }

    /// As many bytes as a message may have.
    fn fill(&mut self, alloc: Global) -> Result<(), CutFault> {
        let piece = vec![in alloc; b'x'; 65536].map_err(|_| CutFault::Memory)?;
        for _ in 0..1024 {
            self.piece(piece.as_slice())?;
        }
        Ok(())
    }

    fn step(&mut self, alloc: Global, word: &[u8]) -> Result<(), CutFault> {
        match word {
            b"fill" => self.fill(alloc),
            _ => self.piece(word),
        }
    }

    /// How many messages were given and how many bytes are kept, and the length of a message that is too long for the
    /// counter.
    fn show(&self, alloc: Global, told: &mut Bytes) -> Result<(), Fail> {
        show_number(alloc, told, self.given)?;
        told.extend(b" given, ")?;
        show_number(alloc, told, self.cutter.held())?;
        told.extend(b" held")?;
        if let Some(length) = self.counter.too_long() {
            told.extend(b", too long to count: ")?;
            show_number(alloc, told, length)?;
        }
        show_line(told, "")
    }
}

/// What the cutter and the counter say after each piece, and why the cutter stops.
fn feed(alloc: Global, words: &[Bytes], told: &mut Bytes) -> Result<(), Fail> {
    let mut fed = Fed {
        cutter: DropCutter::new(alloc),
        counter: DropCounter::new(),
        given: 0,
    };
    for word in words {
        if let Err(fault) = fed.step(alloc, word.as_slice()) {
            told.extend(format!(in alloc; "{fault}; ")?.as_bytes())?;
        }
        fed.show(alloc, told)?;
    }
    match fed.cutter.end() {
        Ok(_) => show_line(told, "ended"),
        Err(fault) => show_line(told, format!(in alloc; "{fault}")?.as_str()),
    }
}

pub(crate) fn call(alloc: Global, words: &[Bytes], told: &mut Bytes) -> Result<(), Fail> {
    match word(words, 1)? {
        b"read" => read(alloc, word(words, 2)?, told),
        b"every-cut" => every_cut(alloc, word(words, 2)?, told),
        b"feed" => feed(alloc, from(words, 2), told),
        _ => Err("a call of drops".into()),
    }
}
