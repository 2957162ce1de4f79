// A draft, with what is given for its wants and the leaves that its message is to have.
use crate::leaf::{put_leaf, put_number};
use mh_base::{Bytes, List};
use mhbuild_compose::{Given, GivenList};
use std::alloc::{AllocError, Global};

/// All bytes of a picture.
const PICTURE: &[u8] = b"\x00\x01GIF89a\r\n\r\n--mh-\xff\xfe\n\n.\nFrom x\n";

/// A text of one byte beyond seven bits, and one that no code has room for on one line.
const LATIN: &[u8] = b"caf\xc3\xa9 = =20 \t\n";

const ASCII: &[u8] = b"From here on, \"plain\": text.\n\n.\n";

const MESSAGE: &[u8] = b"Subject: forwarded\n\nThe body.\n--mh-\n";

#[derive(Drop)]
pub(crate) struct Asked {
    alloc: Global,
    /// Whether the message is to have several parts.
    several: bool,
    pub draft: Bytes,
    pub givens: GivenList,
    pub leaves: Bytes,
    /// The text that is not yet a part.
    text: Bytes,
    pub parts: u64,
}

impl Asked {
    pub(crate) fn new(alloc: Global, several: bool) -> Result<Asked, AllocError> {
        Ok(Asked {
            alloc,
            several,
            draft: Bytes::from_slice(alloc, b"Subject: t\n\n")?,
            givens: List::new(alloc),
            leaves: Bytes::new(alloc),
            text: Bytes::new(alloc),
            parts: 0,
        })
    }

    /// The path of a leaf below the part that was begun last.
    fn path(&self, below: &[u64]) -> Result<Bytes, AllocError> {
        let mut path = Bytes::new(self.alloc);
        if self.several {
            put_number(&mut path, self.parts)?;
        }
        for number in below {
            put_number(&mut path, *number)?;
        }
        Ok(path)
    }

    fn leaf(&mut self, below: &[u64], kind: &[u8], bytes: &[u8]) -> Result<(), AllocError> {
        let path = self.path(below)?;
        put_leaf(&mut self.leaves, path.as_slice(), kind, bytes)
    }

    /// A part begins: the text before it is one.
    fn begin(&mut self) -> Result<(), AllocError> {
        if self.text.as_slice().len() != 0 {
            self.parts = self.parts.saturating_add(1);
            let text = Bytes::from_slice(self.alloc, self.text.as_slice())?;
            self.leaf(&[], b"text/plain", text.as_slice())?;
            self.text = Bytes::new(self.alloc);
        }
        Ok(())
    }

    fn text(&mut self, text: &[u8]) -> Result<(), AllocError> {
        self.draft.extend(text)?;
        self.text.extend(text)
    }

    fn part(&mut self, line: &[u8]) -> Result<(), AllocError> {
        self.begin()?;
        self.parts = self.parts.saturating_add(1);
        self.draft.extend(line)
    }

    fn give(&mut self, bytes: &[u8]) -> Result<(), AllocError> {
        let file = Given::File(Bytes::from_slice(self.alloc, bytes)?);
        self.givens.push(file)
    }

    fn picture(&mut self) -> Result<(), AllocError> {
        self.part(b"#image/gif; name=\"p.gif\" [a picture] /tmp/p\n")?;
        self.give(PICTURE)?;
        self.leaf(&[], b"image/gif", PICTURE)
    }

    fn source(&mut self) -> Result<(), AllocError> {
        self.part(b"#text/x-c /tmp/c\n")?;
        self.give(ASCII)?;
        self.leaf(&[], b"text/x-c", ASCII)
    }

    fn message(&mut self) -> Result<(), AllocError> {
        self.part(b"#forw 1\n")?;
        let mut messages = List::new(self.alloc);
        messages.push(Bytes::from_slice(self.alloc, MESSAGE)?)?;
        self.givens.push(Given::Messages(messages))?;
        self.leaf(&[1], b"text/plain", b"The body.\n--mh-\n")
    }

    fn digest(&mut self) -> Result<(), AllocError> {
        self.part(b"#forw +inbox 1 2\n")?;
        let mut messages = List::new(self.alloc);
        messages.push(Bytes::from_slice(self.alloc, MESSAGE)?)?;
        messages.push(Bytes::from_slice(self.alloc, b"A: b\n\n\xe9\n")?)?;
        self.givens.push(Given::Messages(messages))?;
        self.leaf(&[1, 1], b"text/plain", b"The body.\n--mh-\n")?;
        self.leaf(&[2, 1], b"text/plain", b"\xe9\n")
    }

    /// A text or a picture, and in the picture's place a choice of two more.
    fn choice(&mut self) -> Result<(), AllocError> {
        self.part(b"#begin alternative\n")?;
        self.draft.extend(ASCII)?;
        self.leaf(&[1], b"text/plain", ASCII)?;
        self.draft.extend(b"#begin parallel\n#image/gif /tmp/p\n#text/x-c /tmp/c\n#end\n#end\n")?;
        self.give(PICTURE)?;
        self.give(LATIN)?;
        self.leaf(&[2, 1], b"image/gif", PICTURE)?;
        self.leaf(&[2, 2], b"text/x-c", LATIN)
    }

    /// What this number says; nothing beyond seven.
    pub(crate) fn item(&mut self, which: u64) -> Result<(), AllocError> {
        match which {
            0 => self.text(ASCII),
            1 => self.text(LATIN),
            2 => self.picture(),
            3 => self.source(),
            4 => self.message(),
            5 => self.digest(),
            6 => self.choice(),
            _ => Ok(()),
        }
    }

    pub(crate) fn end(&mut self) -> Result<(), AllocError> {
        self.begin()
    }
}
