// The text of a row, read word by word.

/// What is left of the text, and what stands between its words.
#[derive(Clone, Copy)]
pub struct Wanted<'a> {
    pub rest: &'a str,
    pub between: char,
}

impl<'a> Wanted<'a> {
    pub fn next(&mut self) -> &'a str {
        let (word, rest) = self
            .rest
            .split_once(self.between)
            .unwrap_or((self.rest, ""));
        self.rest = rest;
        word
    }

    /// Whether the next word is this.
    pub fn is(&mut self, word: &str) -> bool {
        self.next() == word
    }

    /// Whether the next word has these bytes between two marks.
    pub fn is_bytes_between(&mut self, front: &str, bytes: &[u8], back: &str) -> bool {
        match self.next().strip_prefix(front) {
            Some(word) => match word.strip_suffix(back) {
                Some(word) => word.as_bytes() == bytes,
                None => false,
            },
            None => false,
        }
    }

    /// Whether the next word is this between two marks.
    pub fn is_between(&mut self, front: &str, word: &str, back: &str) -> bool {
        self.is_bytes_between(front, word.as_bytes(), back)
    }

    /// Whether the next word is this number behind a mark.
    pub fn is_number(&mut self, front: &str, number: u64) -> bool {
        match self.next().strip_prefix(front) {
            Some(word) => word.parse::<u64>() == Ok(number),
            None => false,
        }
    }
}
