// Base64 and quoted-printable text of ten megabytes, beside a plain read of its bytes.
use crate::rates::{measure_plain, micros_since, tell_bytes};
use mh_base::Bytes;
use mime_codes::{b64_decode, b64_encode, qp_decode, qp_encode};
use std::alloc::{AllocError, Global};
use std::rt::Clock;
use std::test::Fail;
use std::time::Instant;

const LENGTH: usize = 10_000_000;

/// Bytes of every kind.
fn mixed(alloc: Global) -> Result<Vec<u8>, AllocError> {
    let mut bytes = Vec::with_capacity(alloc, LENGTH)?;
    let mut state: u32 = 1;
    for _ in 0..LENGTH {
        state = state.wrapping_mul(1_664_525).wrapping_add(1_013_904_223);
        bytes.push((state >> 24) as u8)?;
    }
    Ok(bytes)
}

/// Lines of prose with a few letters beyond ASCII.
fn prose(alloc: Global) -> Result<Vec<u8>, AllocError> {
    let mut bytes = Vec::with_capacity(alloc, LENGTH)?;
    for _ in 0..LENGTH / 80 {
        bytes.extend_from_slice(
            b"The quick brown fox jumps over the caf\xC3\xA9 = a place, and runs away from all of it.\n",
        )?;
    }
    Ok(bytes)
}

fn measure_b64_encode(
    rt: &(impl Print + Clock),
    alloc: Global,
    bytes: &[u8],
) -> Result<Bytes, Fail> {
    let start = Instant::now(rt)?;
    let text = b64_encode(alloc, bytes)?;
    let taken = micros_since(rt, start)?;
    tell_bytes(rt, "b64_encode", bytes, taken, text.len() as u64)?;
    Ok(text)
}

fn measure_b64_decode(rt: &(impl Print + Clock), alloc: Global, text: &[u8]) -> Result<(), Fail> {
    let mut into = vec![in alloc; 0u8; text.len()]?;
    let start = Instant::now(rt)?;
    let count = b64_decode(into.as_mut_slice(), text);
    let taken = micros_since(rt, start)?;
    tell_bytes(rt, "b64_decode", text, taken, count as u64)
}

fn measure_base64(rt: &(impl Print + Clock), alloc: Global) -> Result<(), Fail> {
    let bytes = mixed(alloc)?;
    let text = measure_b64_encode(rt, alloc, bytes.as_slice())?;
    measure_b64_decode(rt, alloc, text.as_slice())
}

fn measure_qp_encode(
    rt: &(impl Print + Clock),
    alloc: Global,
    bytes: &[u8],
) -> Result<Bytes, Fail> {
    let start = Instant::now(rt)?;
    let text = qp_encode(alloc, bytes)?;
    let taken = micros_since(rt, start)?;
    tell_bytes(rt, "qp_encode", bytes, taken, text.len() as u64)?;
    Ok(text)
}

fn measure_qp_decode(rt: &(impl Print + Clock), alloc: Global, text: &[u8]) -> Result<(), Fail> {
    let mut into = vec![in alloc; 0u8; text.len()]?;
    let start = Instant::now(rt)?;
    let count = qp_decode(into.as_mut_slice(), text);
    let taken = micros_since(rt, start)?;
    tell_bytes(rt, "qp_decode", text, taken, count as u64)
}

fn measure_quoted(rt: &(impl Print + Clock), alloc: Global) -> Result<(), Fail> {
    let bytes = prose(alloc)?;
    let text = measure_qp_encode(rt, alloc, bytes.as_slice())?;
    measure_qp_decode(rt, alloc, text.as_slice())?;
    measure_plain(rt, text.as_slice())
}

pub fn measure(rt: &(impl Print + Clock), alloc: Global) -> Result<(), Fail> {
    measure_base64(rt, alloc)?;
    measure_quoted(rt, alloc)
}
