// The words of a line.
use mh_base::Bytes;
use std::alloc::Global;
use std::test::Fail;

/// Where in a line a byte stands.
#[derive(Clone, Copy)]
enum Inside {
    Gap,
    Word,
    Quotes,
    Escape,
    /// Behind `\x`, before its first digit.
    High,
    /// Behind its first digit.
    Low(u8),
}

#[derive(Drop)]
struct Cutter {
    alloc: Global,
    words: Vec<Bytes>,
    word: Vec<u8>,
    inside: Inside,
}

fn digit(byte: u8) -> Result<u8, Fail> {
    match byte {
        b'0'..=b'9' => Ok(byte - b'0'),
        b'a'..=b'f' => Ok(byte - b'a' + 10),
        _ => Err("a hexadecimal digit".into()),
    }
}

fn escaped(byte: u8) -> Result<u8, Fail> {
    match byte {
        b'n' => Ok(b'\n'),
        b'r' => Ok(b'\r'),
        b't' => Ok(b'\t'),
        b'"' | b'\\' => Ok(byte),
        _ => Err("an escape".into()),
    }
}

impl Cutter {
    fn end_word(&mut self) -> Result<(), Fail> {
        let word = std::mem::replace(&mut self.word, Vec::new(self.alloc));
        self.words.push(Bytes::from_vec(word))?;
        self.inside = Inside::Gap;
        Ok(())
    }

    fn add(&mut self, byte: u8, inside: Inside) -> Result<(), Fail> {
        self.word.push(byte)?;
        self.inside = inside;
        Ok(())
    }

    fn in_gap(&mut self, byte: u8) -> Result<(), Fail> {
        match byte {
            b' ' => Ok(()),
            b'"' => {
                self.inside = Inside::Quotes;
                Ok(())
            }
            _ => self.add(byte, Inside::Word),
        }
    }

    fn in_word(&mut self, byte: u8) -> Result<(), Fail> {
        match byte {
            b' ' => self.end_word(),
            _ => self.add(byte, Inside::Word),
        }
    }

    fn in_quotes(&mut self, byte: u8) -> Result<(), Fail> {
        match byte {
            b'"' => self.end_word(),
            b'\\' => {
                self.inside = Inside::Escape;
                Ok(())
            }
            _ => self.add(byte, Inside::Quotes),
        }
    }

    fn in_escape(&mut self, byte: u8) -> Result<(), Fail> {
        match byte {
            b'x' => {
                self.inside = Inside::High;
                Ok(())
            }
            _ => self.add(escaped(byte)?, Inside::Quotes),
        }
    }

    fn take(&mut self, byte: u8) -> Result<(), Fail> {
        match self.inside {
            Inside::Gap => self.in_gap(byte),
            Inside::Word => self.in_word(byte),
            Inside::Quotes => self.in_quotes(byte),
            Inside::Escape => self.in_escape(byte),
            Inside::High => {
                self.inside = Inside::Low(digit(byte)?);
                Ok(())
            }
            Inside::Low(high) => {
                let low = digit(byte)?;
                self.add(high.wrapping_mul(16) | low, Inside::Quotes)
            }
        }
    }
}

/// The words of a line, between spaces. One in double quotes may have spaces, and for other bytes `\n`, `\r`, `\t`,
/// `\"`, `\\` and `\x` with two digits.
pub fn words(alloc: Global, line: &[u8]) -> Result<Vec<Bytes>, Fail> {
    let mut cutter = Cutter {
        alloc,
        words: Vec::new(alloc),
        word: Vec::new(alloc),
        inside: Inside::Gap,
    };
    for byte in line {
        cutter.take(*byte)?;
    }
    match cutter.inside {
        Inside::Gap => {}
        Inside::Word => cutter.end_word()?,
        _ => return Err("an open word".into()),
    }
    Ok(cutter.words)
}

/// The word at this place of a line.
pub fn word<'a>(words: &'a [Bytes], index: usize) -> Result<&'a [u8], Fail> {
    match words.get(index) {
        Some(word) => Ok(word.as_slice()),
        None => Err("a word more".into()),
    }
}

/// A word as text.
pub fn text(word: &[u8]) -> Result<&str, Fail> {
    Ok(std::str::from_utf8(word).ok().ok_or("text")?)
}

/// The number that a word is.
pub fn number(word: &[u8]) -> Result<u64, Fail> {
    let mut number = 0u64;
    for byte in word {
        if !byte.is_ascii_digit() {
            return Err("a number".into());
        }
        let digit = u64::from(*byte - b'0');
        number = number.wrapping_mul(10).wrapping_add(digit);
    }
    Ok(number)
}

/// The same, with a dash before it where it is below 0.
pub fn signed(word: &[u8]) -> Result<i64, Fail> {
    let (below, digits) = match word.strip_prefix(b"-") {
        Some(digits) => (true, digits),
        None => (false, word),
    };
    let number = i64::try_from(number(digits)?).ok().ok_or("a number")?;
    Ok(if below {
        0i64.wrapping_sub(number)
    } else {
        number
    })
}
