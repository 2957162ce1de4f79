// Words of `inc` and what they say, worked out by hand.
use crate::given::{Row, Said, Shown, flag_text, folder_text, is_format, word_text, wrong_row};
use crate::wanted::Wanted;
use command_words::Ended;
use look_words::{IncWords, inc_words};
use mh_profile::Entries;
use std::alloc::Global;

impl Shown for IncWords {
    fn is_shown(&self, wanted: &mut Wanted) -> bool {
        wanted.is(folder_text(&self.folder))
            && wanted.is(word_text(&self.file))
            && wanted.is(flag_text(self.truncate))
            && wanted.is(flag_text(self.silent))
            && wanted.is(flag_text(self.change_cur))
            && is_format(wanted, &self.look.format)
            && wanted.is_number("", u64::from(self.look.width))
    }
}

impl Said for IncWords {
    fn read(alloc: Global, entries: &Entries, words: &[String]) -> Result<IncWords, Ended> {
        inc_words(alloc, entries, words)
    }
}

/// The folder, the drop, whether it is cut, whether nothing is written, whether the current message changes,
/// the format and the width.
const ROWS: &[Row] = &[
    ("", "", "- - true false true - 80"),
    (
        "",
        "+new -silent -nochangecur",
        "new - true true false - 80",
    ),
    ("", "-file box", "- box false false true - 80"),
    ("", "-file a -truncate -file b", "- b true false true - 80"),
    (
        "inc: -notruncate -silent",
        "-nosilent",
        "- - false false true - 80",
    ),
    ("rmm: -unlink", "-tr", "- - true false true - 80"),
    ("", "+a 1 +b", "Extra @1 [1]"),
    ("", "+a +b 1", "Extra @1 [+b]"),
    ("", "cur -file", "NoValue @1 [-file]"),
    ("", "+..", "bad folder +.."),
    ("", "-form x -w 9", "- - true false true @x 9"),
    ("", "-form x -format y", "- - true false true y 80"),
    ("", "-fo x", "Ambiguous @0 [-fo]"),
    ("", "-width 0 1", "BadValue @0 [-width]"),
    ("", "1 -width 0", "Extra @0 [1]"),
    ("", "-width 0", "BadValue @0 [-width]"),
    ("", "-form", "NoValue @0 [-form]"),
];

#[test]
fn words_of_inc(rt: HostRuntime) {
    assert_eq!(rt; wrong_row::<IncWords>(rt.alloc(), ROWS), None);
}
