// Words of `mhlist` and what they say, worked out by hand.
use crate::given::{Row, Said, Shown, are_texts, folder_text, wrong_row};
use crate::wanted::Wanted;
use command_words::Ended;
use list_words::{ListWords, list_words};
use mh_base::{List, NumberList};
use mh_profile::Entries;
use mime_tree::PartPath;
use std::alloc::Global;

fn are_numbers(text: &str, numbers: &NumberList) -> bool {
    let mut wanted = Wanted {
        rest: text,
        between: '.',
    };
    for number in numbers.as_slice() {
        if !wanted.is_number("", *number) {
            return false;
        }
    }
    wanted.rest.is_empty()
}

/// The numbers of a path, each with a dot before it.
fn is_path(wanted: &mut Wanted, path: &PartPath) -> bool {
    match wanted.next().strip_prefix(".") {
        Some(numbers) => are_numbers(numbers, path.numbers()),
        None => false,
    }
}

fn are_paths(wanted: &mut Wanted, parts: &List<PartPath>) -> bool {
    for path in parts.as_slice() {
        if !is_path(wanted, path) {
            return false;
        }
    }
    true
}

impl Shown for ListWords {
    fn is_shown(&self, wanted: &mut Wanted) -> bool {
        wanted.is(folder_text(&self.folder))
            && are_paths(wanted, &self.parts)
            && are_texts(wanted, &self.specs)
    }
}

impl Said for ListWords {
    fn read(alloc: Global, entries: &Entries, words: &[String]) -> Result<ListWords, Ended> {
        list_words(alloc, entries, words)
    }
}

/// The folder, the parts and the messages' names.
const ROWS: &[Row] = &[
    ("", "", "- cur"),
    ("", "2-3 +inbox last", "inbox 2-3 last"),
    ("mhlist: -part 1", "-p 2.10 5", "- .1 .2.10 5"),
    ("scan: -part 1", "-part 3 -part 3", "- .3 .3 cur"),
    ("", "-part 0", "BadValue @0 [-part]"),
    ("", "1 -part 01 -part x", "BadValue @1 [-part]"),
    ("", "-part 1..2", "BadValue @0 [-part]"),
    ("", "-part 10000", "BadValue @0 [-part]"),
    ("", "+a +b -part x", "Extra @1 [+b]"),
    ("", "-part x +a +b", "BadValue @0 [-part]"),
    ("", "-part", "NoValue @0 [-part]"),
    ("", "+..", "bad folder +.."),
    ("", "-x", "Unknown @0 [-x]"),
];

#[test]
fn words_of_mhlist(rt: HostRuntime) {
    assert_eq!(rt; wrong_row::<ListWords>(rt.alloc(), ROWS), None);
}
