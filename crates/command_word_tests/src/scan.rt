// Words of `scan` and what they say, worked out by hand.
use crate::given::{Row, Said, Shown, are_texts, flag_text, folder_text, is_format, wrong_row};
use crate::wanted::Wanted;
use command_words::{Ended, read_folder};
use look_words::{ScanWords, scan_words};
use mh_base::Text;
use mh_profile::Entries;
use std::alloc::{AllocError, Global};

impl Shown for ScanWords {
    fn is_shown(&self, wanted: &mut Wanted) -> bool {
        wanted.is(folder_text(&self.folder))
            && wanted.is(flag_text(self.reverse))
            && is_format(wanted, &self.look.format)
            && wanted.is_number("", u64::from(self.look.width))
            && are_texts(wanted, &self.specs)
    }
}

impl Said for ScanWords {
    fn read(alloc: Global, entries: &Entries, words: &[String]) -> Result<ScanWords, Ended> {
        scan_words(alloc, entries, words)
    }
}

/// The folder, whether the last message comes first, the format, the width, and the messages' names.
const ROWS: &[Row] = &[
    ("", "", "- false - 80 all"),
    ("", "-reverse +inbox 1 last:2", "inbox true - 80 1 last:2"),
    ("scan: -rev 3", "-norev", "- false - 80 3"),
    ("mark: -zero", "-rev", "- true - 80 all"),
    ("", "+a 1 +b", "Extra @2 [+b]"),
    ("scan: +a", "+b", "Extra @1 [+b]"),
    ("", "+..", "bad folder +.."),
    ("", "1 -x +a +b", "Unknown @1 [-x]"),
    ("", "-format %(msg) -width 1", "- false %(msg) 1 all"),
    ("scan: -form x", "-format y -w 10000", "- false y 10000 all"),
    ("scan: -format x", "-form y", "- false @y 80 all"),
    ("", "-form a -form b", "- false @b 80 all"),
    ("", "-for x", "Ambiguous @0 [-for]"),
    ("", "-width 00070 -width 0071", "- false - 71 all"),
    ("", "-width 0", "BadValue @0 [-width]"),
    ("", "-width 10001 -width 80", "BadValue @0 [-width]"),
    ("scan: -width 0", "-width 80", "BadValue @0 [-width]"),
    ("", "-width +5 +a +b", "BadValue @0 [-width]"),
    ("", "-width 18446744073709551626", "BadValue @0 [-width]"),
    ("", "+a +b -width 0", "Extra @1 [+b]"),
    ("", "1 -width", "NoValue @1 [-width]"),
];

#[test]
fn words_of_scan(rt: HostRuntime) {
    assert_eq!(rt; wrong_row::<ScanWords>(rt.alloc(), ROWS), None);
}

fn names_folder(alloc: Global, word: &str) -> Result<bool, AllocError> {
    let word = Text::from_str(alloc, word)?;
    match read_folder(alloc, &word) {
        Ok(name) => Ok(name.text().as_str() == "a/b"),
        Err(_) => Ok(false),
    }
}

#[test]
fn a_folder_has_its_plus_sign_or_none(rt: HostRuntime) {
    assert!(rt; names_folder(rt.alloc(), "+a/b") == Ok(true));
    assert!(rt; names_folder(rt.alloc(), "a/b") == Ok(true));
}
