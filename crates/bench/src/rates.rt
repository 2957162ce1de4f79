// What speeds are told in, and what they stand beside. Each measure takes its time by itself and tells it by a call of
// its own: a function that does both several times over takes minutes to prove.
use std::rt::Clock;
use std::test::Fail;
use std::time::Instant;

/// So many of something in so many microseconds: how many a second.
pub fn per_second(count: u64, micros: u128) -> u64 {
    let micros = u64::try_from(micros).unwrap_or(u64::MAX).max(1);
    count.saturating_mul(1_000_000) / micros
}

/// Bytes a second.
pub fn bytes_per_second(bytes: &[u8], micros: u128) -> u64 {
    per_second(bytes.len() as u64, micros)
}

/// A plain read of each byte.
pub fn plain(bytes: &[u8]) -> u8 {
    let mut all: u8 = 0;
    for byte in bytes {
        all ^= *byte;
    }
    all
}

/// Microseconds since the start.
pub fn micros_since(rt: &impl Clock, start: Instant) -> Result<u128, Fail> {
    Ok(start.elapsed(rt)?.as_micros())
}

/// Tells how many bytes a second were worked on, and what came of them.
pub fn tell_bytes(
    rt: &impl Print,
    what: &str,
    bytes: &[u8],
    micros: u128,
    outcome: u64,
) -> Result<(), Fail> {
    let speed = bytes_per_second(bytes, micros);
    println!(rt; "{what}: {speed} bytes a second ({outcome})")?;
    Ok(())
}

/// Tells how many things a second were worked on, and what came of them.
pub fn tell_things(
    rt: &impl Print,
    what: &str,
    count: u64,
    micros: u128,
    outcome: u64,
) -> Result<(), Fail> {
    let speed = per_second(count, micros);
    println!(rt; "{what}: {speed} a second ({outcome})")?;
    Ok(())
}

/// Reads each byte plainly, and tells how fast.
pub fn measure_plain(rt: &(impl Print + Clock), bytes: &[u8]) -> Result<(), Fail> {
    let start = Instant::now(rt)?;
    let all = plain(bytes);
    let taken = micros_since(rt, start)?;
    tell_bytes(rt, "plain read", bytes, taken, u64::from(all))
}
