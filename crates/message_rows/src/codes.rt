// Codes of MIME.
ghost use Rattle.std.specs.Prelude.{◌≡◌, IfOk, length};

use mh_base::Bytes;
use mime_codes::{b64_decode, b64_encode, qp_decode, qp_encode};
use row_text::{number, show_number, show_quoted_line, word};
use std::alloc::{AllocError, Global};
use std::test::Fail;

/// How many bytes were read, and the place for them, which was full of dots.
fn show_read(alloc: Global, count: usize, into: &[u8], told: &mut Bytes) -> Result<(), Fail> {
    show_number(alloc, told, count as u64)?;
    told.extend(b" ")?;
    show_quoted_line(told, into)
}

fn dots(alloc: Global, text: &[u8]) -> Result<Vec<u8>, AllocError>
    ensures { IfOk result (λ v. length v.items ≡ length text.now) }
{
    vec![in alloc; b'.'; text.len()]
}

fn read_qp(alloc: Global, text: &[u8], told: &mut Bytes) -> Result<(), Fail> {
    let mut into = dots(alloc, text)?;
    let count = qp_decode(into.as_mut_slice(), text);
    show_read(alloc, count, into.as_slice(), told)
}

fn read_b64(alloc: Global, text: &[u8], told: &mut Bytes) -> Result<(), Fail> {
    let mut into = dots(alloc, text)?;
    let count = b64_decode(into.as_mut_slice(), text);
    show_read(alloc, count, into.as_slice(), told)
}

fn write_qp(alloc: Global, bytes: &[u8], told: &mut Bytes) -> Result<(), Fail> {
    show_quoted_line(told, qp_encode(alloc, bytes)?.as_slice())
}

fn write_b64(alloc: Global, bytes: &[u8], told: &mut Bytes) -> Result<(), Fail> {
    show_quoted_line(told, b64_encode(alloc, bytes)?.as_slice())
}

fn write_zeros(alloc: Global, count: &[u8], told: &mut Bytes) -> Result<(), Fail> {
    let count = usize::try_from(number(count)?).ok().ok_or("a count")?;
    let zeros = vec![in alloc; 0u8; count]?;
    write_b64(alloc, zeros.as_slice(), told)
}

pub(crate) fn call(alloc: Global, words: &[Bytes], told: &mut Bytes) -> Result<(), Fail> {
    let given = word(words, 2)?;
    match word(words, 1)? {
        b"read-qp" => read_qp(alloc, given, told),
        b"read-b64" => read_b64(alloc, given, told),
        b"write-qp" => write_qp(alloc, given, told),
        b"write-b64" => write_b64(alloc, given, told),
        b"write-b64-zeros" => write_zeros(alloc, given, told),
        _ => Err("a code".into()),
    }
}
