// Rows, one after another.
use crate::words;
use mh_base::Bytes;
use std::alloc::Global;
use std::test::Fail;

/// What rows call.
pub trait Calls {
    /// Makes the call of a row with these words, and tells what it gives.
    fn call(&mut self, alloc: Global, words: Vec<Bytes>, told: &mut Bytes) -> Result<(), Fail>;
}

fn play_row<C: Calls>(
    alloc: Global,
    line: &[u8],
    calls: &mut C,
    told: &mut Bytes,
) -> Result<(), Fail> {
    if line.is_empty() || line.starts_with(b"#") {
        return Ok(());
    }
    told.extend(line)?;
    told.extend(b"\n")?;
    let words = words(alloc, line)?;
    calls.call(alloc, words, told)
}

/// Each row that isn't empty and doesn't begin with `#`, with what its call gives.
pub fn play<C: Calls>(alloc: Global, rows: &str, calls: &mut C) -> Result<Bytes, Fail> {
    let mut told = Bytes::new(alloc);
    for line in rows.lines() {
        play_row(alloc, line.as_bytes(), calls, &mut told)?;
    }
    Ok(told)
}
