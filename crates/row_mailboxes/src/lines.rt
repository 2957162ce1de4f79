// Lines that give a mailbox.
use crate::files::GivenFile;
use crate::given::Given;
use crate::places::{path, place};
use mh_base::Bytes;
use row_text::{from, number, word};
use std::test::Fail;

fn lock(given: &mut Given, words: &[Bytes]) -> Result<(), Fail> {
    let run = u128::from(number(word(words, 2)?)?);
    let place = place(given.alloc(), given.mail(), word(words, 1)?)?;
    given.add_lock(place, run)
}

fn outside(given: &mut Given, words: &[Bytes]) -> Result<(), Fail> {
    let path = path(given.alloc(), word(words, 1)?)?;
    given.add_outside(path, from(words, 2))
}

fn file(given: &mut Given, words: &[Bytes]) -> Result<(), Fail> {
    let file = GivenFile::new(given.alloc(), word(words, 0)?, word(words, 1)?)?;
    given.add_file(file)
}

/// A directory with files, each a name and its bytes.
fn directory(given: &mut Given, words: &[Bytes]) -> Result<(), Fail> {
    let place = place(given.alloc(), given.mail(), word(words, 0)?)?;
    given.add_place(place)?;
    for words in from(words, 1).chunks(2) {
        file(given, words)?;
    }
    Ok(())
}

impl Given {
    /// `mail` and the path of the mail directory; `outside`, a path and the bytes of a file; `locked`, a directory and
    /// the run that has its lock; or a directory and its files, each a name and its bytes, `zeros:` and how many zero
    /// bytes, or `same:` and a name before.
    pub fn line(&mut self, words: &[Bytes]) -> Result<(), Fail> {
        match word(words, 0)? {
            b"mail" => self.set_mail(word(words, 1)?),
            b"outside" => outside(self, words),
            b"locked" => lock(self, words),
            _ => directory(self, words),
        }
    }
}
