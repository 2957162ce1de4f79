// A drop of 50 megabytes, beside a plain read of its bytes.
use crate::rates::{micros_since, plain, tell_bytes};
use mbox_drop::{DropCounter, DropCutter, MailDrop};
use std::alloc::{AllocError, Global};
use std::rt::Clock;
use std::test::Fail;
use std::time::Instant;

const MESSAGES: usize = 8_200;

const PIECE: usize = 65_536;

/// A drop of messages of about six kilobytes, with lines of 71 bytes.
fn made(alloc: Global) -> Result<Vec<u8>, AllocError> {
    let mut bytes = Vec::new(alloc);
    for _ in 0..MESSAGES {
        bytes.extend_from_slice(b"From ann@a.example Tue Jun  2 10:00:00 2026\nSubject: One\n\n")?;
        for _ in 0..85 {
            bytes.extend_from_slice(
                b"The quick brown fox jumps over the lazy dog and runs away from it now.\n",
            )?;
        }
        bytes.extend_from_slice(b"\n>From here on it is the end.\n\n")?;
    }
    Ok(bytes)
}

/// A plain read, piece by piece.
fn measure_pieces(rt: &(impl Print + Clock), bytes: &[u8]) -> Result<(), Fail> {
    let start = Instant::now(rt)?;
    let mut all: u8 = 0;
    for piece in bytes.chunks(PIECE) {
        all ^= plain(piece);
    }
    let taken = micros_since(rt, start)?;
    tell_bytes(rt, "plain read", bytes, taken, u64::from(all))
}

/// How many messages the drop has.
fn cut_count(bytes: &[u8]) -> usize {
    match MailDrop::cut(bytes) {
        Ok(drop) => drop.messages().count(),
        Err(_) => 0,
    }
}

fn measure_cut(rt: &(impl Print + Clock), bytes: &[u8]) -> Result<(), Fail> {
    let start = Instant::now(rt)?;
    let count = cut_count(bytes);
    let taken = micros_since(rt, start)?;
    tell_bytes(rt, "MailDrop", bytes, taken, count as u64)
}

/// How many messages the pieces have.
fn counted(bytes: &[u8]) -> u64 {
    let mut counter = DropCounter::new();
    for piece in bytes.chunks(PIECE) {
        counter.feed(piece);
    }
    counter.end().unwrap_or(0)
}

fn measure_counter(rt: &(impl Print + Clock), bytes: &[u8]) -> Result<(), Fail> {
    let start = Instant::now(rt)?;
    let count = counted(bytes);
    let taken = micros_since(rt, start)?;
    tell_bytes(rt, "DropCounter", bytes, taken, count)
}

/// How many messages a cutter gave of the pieces, the last left out.
fn given(alloc: Global, bytes: &[u8]) -> Result<usize, Fail> {
    let mut cutter = DropCutter::new(alloc);
    let mut count: usize = 0;
    for piece in bytes.chunks(PIECE) {
        count = count.saturating_add(cutter.feed(piece)?.len());
    }
    Ok(count)
}

fn measure_cutter(rt: &(impl Print + Clock), alloc: Global, bytes: &[u8]) -> Result<(), Fail> {
    let start = Instant::now(rt)?;
    let count = given(alloc, bytes)?;
    let taken = micros_since(rt, start)?;
    tell_bytes(
        rt,
        "DropCutter, without the last",
        bytes,
        taken,
        count as u64,
    )
}

pub fn measure(rt: &(impl Print + Clock), alloc: Global) -> Result<(), Fail> {
    let bytes = made(alloc)?;
    measure_pieces(rt, bytes.as_slice())?;
    measure_cut(rt, bytes.as_slice())?;
    measure_counter(rt, bytes.as_slice())?;
    measure_cutter(rt, alloc, bytes.as_slice())
}
