// Bytes as they are shown.
use mh_base::Bytes;
use std::test::Fail;

const DIGITS: &[u8] = b"0123456789abcdef";

fn digit(n: u8) -> u8 {
    match DIGITS.get(n as usize) {
        Some(digit) => *digit,
        None => b'?',
    }
}

fn show_byte(told: &mut Bytes, byte: u8) -> Result<(), Fail> {
    match byte {
        b'\n' => told.extend(b"\\n")?,
        b'\r' => told.extend(b"\\r")?,
        b'\t' => told.extend(b"\\t")?,
        b'"' => told.extend(b"\\\"")?,
        b'\\' => told.extend(b"\\\\")?,
        32..=126 => told.extend(&[byte])?,
        _ => told.extend(&[b'\\', b'x', digit(byte / 16), digit(byte % 16)])?,
    }
    Ok(())
}

/// In double quotes, as a word of a line has them.
pub fn show_quoted(told: &mut Bytes, bytes: &[u8]) -> Result<(), Fail> {
    told.extend(b"\"")?;
    for byte in bytes {
        show_byte(told, *byte)?;
    }
    told.extend(b"\"")?;
    Ok(())
}
