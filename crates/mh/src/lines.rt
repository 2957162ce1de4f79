// Lines of the error output that `main` writes.
use std::alloc::{AllocError, Global};
use std::io::Write;

fn shown_byte(byte: u8) -> char {
    if 32 <= byte && byte <= 126 {
        byte as char
    } else {
        '?'
    }
}

/// Printable ASCII, with a question mark for each other byte, as the top call shows a word.
fn push_shown(line: &mut String, text: &str) -> Result<(), AllocError> {
    for byte in text.as_bytes() {
        line.push(shown_byte(*byte))?;
    }
    Ok(())
}

/// A line with a word in it.
pub fn line_with(
    alloc: Global,
    before: &str,
    word: &str,
    behind: &str,
) -> Result<String, AllocError> {
    let mut line = String::from_str(alloc, "mh: ")?;
    line.push_str(before)?;
    push_shown(&mut line, word)?;
    line.push_str(behind)?;
    line.push('\n')?;
    Ok(line)
}

/// A line of a text that stands as it is.
pub fn line_of(alloc: Global, text: &str) -> Result<String, AllocError> {
    let mut line = String::from_str(alloc, "mh: ")?;
    line.push_str(text)?;
    line.push('\n')?;
    Ok(line)
}

/// Writes to the error output. Where that fails nobody is left to be told.
pub fn warn(rt: &HostRuntime, text: &[u8]) {
    let _ = rt.stderr().write_all(text);
}

/// Writes a line, where there is one.
pub fn warn_if_there(rt: &HostRuntime, line: Result<Option<String>, AllocError>) {
    if let Ok(Some(line)) = line {
        warn(rt, line.as_str().as_bytes());
    }
}
