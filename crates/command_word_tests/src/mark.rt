// Words of `mark` and what they say, worked out by hand.
use crate::given::{Row, Said, Shown, are_texts, flag_text, folder_text, wrong_row};
use crate::wanted::Wanted;
use command_words::Ended;
use folder_words::{MarkWords, mark_words};
use mark_command::MarkAct;
use mh_profile::Entries;
use mh_sequences::SeqNameList;
use std::alloc::Global;

fn act_text(act: Option<MarkAct>) -> &'static str {
    match act {
        None => "None",
        Some(MarkAct::Add) => "Some(Add)",
        Some(MarkAct::Delete) => "Some(Delete)",
        Some(MarkAct::Set) => "Some(Set)",
        Some(MarkAct::SetOthers) => "Some(SetOthers)",
    }
}

fn public_text(public: Option<bool>) -> &'static str {
    match public {
        None => "None",
        Some(true) => "Some(true)",
        Some(false) => "Some(false)",
    }
}

fn are_names(wanted: &mut Wanted, names: &SeqNameList) -> bool {
    for name in names.as_slice() {
        if !wanted.is(name.text().as_str()) {
            return false;
        }
    }
    true
}

impl Shown for MarkWords {
    fn is_shown(&self, wanted: &mut Wanted) -> bool {
        wanted.is(folder_text(&self.folder))
            && wanted.is(act_text(self.act))
            && wanted.is(flag_text(self.list))
            && wanted.is(public_text(self.public))
            && are_texts(wanted, &self.specs)
            && wanted.is("/")
            && are_names(wanted, &self.names)
    }
}

impl Said for MarkWords {
    fn read(alloc: Global, entries: &Entries, words: &[String]) -> Result<MarkWords, Ended> {
        mark_words(alloc, entries, words)
    }
}

/// The folder, what is done, whether the sequences are listed and whether they become public; then the messages' names,
/// and behind a slash the sequences.
const ROWS: &[Row] = &[
    // What is done.
    (
        "",
        "-sequence todo 1-2",
        "- Some(Add) false None 1-2 / todo",
    ),
    ("", "-seq todo", "- Some(Add) false None cur / todo"),
    ("", "-zero -sequence a 3", "- Some(Set) false None 3 / a"),
    (
        "",
        "-delete -zero -sequence todo 1",
        "- Some(SetOthers) false None 1 / todo",
    ),
    (
        "",
        "-add -sequence a -zero -delete -nozero +x",
        "x Some(Delete) false None cur / a",
    ),
    (
        "",
        "-delete -sequence b -sequence a9 -add -sequence b",
        "- Some(Add) false None cur / b a9 b",
    ),
    // Where they are listed.
    ("", "", "- None true None /"),
    ("", "+inbox 2 1 -zero", "inbox None true None 2 1 /"),
    ("", "-list -sequence a", "- None true None / a"),
    (
        "",
        "-list -sequence a -add",
        "- Some(Add) true None cur / a",
    ),
    // Where they are public.
    (
        "mark: -nopublic",
        "-sequence a",
        "- Some(Add) false Some(false) cur / a",
    ),
    (
        "mark: -nopublic",
        "-sequence a -public",
        "- Some(Add) false Some(true) cur / a",
    ),
    ("scan: -reverse", "-public", "- None true Some(true) /"),
    // Words that are refused.
    ("", "-add", "Missing @1 []"),
    ("mark: -del 1", "-zero", "Missing @3 []"),
    ("", "+a +b", "Extra @1 [+b]"),
    ("", "+a -add +b", "Extra @2 [+b]"),
    ("", "-add +..", "Missing @2 []"),
    ("", "-sequence", "NoValue @0 [-sequence]"),
    ("", "+a +b -no", "Ambiguous @2 [-no]"),
    ("", "-sequence cur 1", "bad sequence cur"),
    (
        "",
        "-sequence a -sequence 1b -sequence c-",
        "bad sequence 1b",
    ),
    ("", "+.. -sequence cur", "bad folder +.."),
    ("mark: -sequence", "cur", "bad sequence cur"),
];

#[test]
fn words_of_mark(rt: HostRuntime) {
    assert_eq!(rt; wrong_row::<MarkWords>(rt.alloc(), ROWS), None);
}
