// Expressions worked out by hand.
use mh_base::{List, Text, TextList};
use mh_words::{Switch, SwitchTable, Words, read_words};
use pick_expr::{Expr, ExprFault, SWITCHES, holds, read_expr};
use std::alloc::{AllocError, Global};
use std::test::Fail;

fn table(alloc: Global) -> Result<SwitchTable, AllocError> {
    let mut switches = List::new(alloc);
    for (name, kind) in SWITCHES {
        switches.push(Switch {
            name: Text::from_str(alloc, name)?,
            kind,
        })?;
    }
    Ok(SwitchTable {
        switches,
        components: true,
    })
}

/// The words between spaces, where a tilde stands for a space. An empty text has no word.
fn words(alloc: Global, text: &str) -> Result<TextList, AllocError> {
    let mut list = List::new(alloc);
    if text.is_empty() {
        return Ok(list);
    }
    for part in text.split(' ') {
        let mut word = Text::new(alloc);
        for c in part.chars() {
            word.push(if c == '~' { ' ' } else { c })?;
        }
        list.push(word)?;
    }
    Ok(list)
}

/// The items of a command line, or none where they are wrong already.
fn items(alloc: Global, line: &str) -> Result<Option<Words>, AllocError> {
    let table = table(alloc)?;
    let profile = words(alloc, "")?;
    let line = words(alloc, line)?;
    match read_words(alloc, &table, &profile, &line) {
        Ok(items) => Ok(Some(items)),
        Err(_) => Ok(None),
    }
}

/// 2024-03-10 12:00:00 UTC, a Sunday.
const NOW: i64 = 1_710_072_000;

const MESSAGES: [&str; 4] = [
    "From: Ann\nSubject: big\n\n",
    "From: ann\nSubject: long\n b\n\n",
    "From: ann\nSubject: x\n\n",
    "From: ann\nSubject: B\n\n",
];

const MORE: [&str; 4] = [
    "To: a@b\nTo: second\nX-Seen: Yes\nDate: Sat, 9 Mar 2024 23:59:59 +0000\n\nfirst\r\nlast line",
    "cc: Someone\nCC: Other\nDate: Sun, 10 Mar 2024 00:00:00 +0000\nDate: 1 Jan 1990 00:00:00 +0000\n\nfirst\n\nend\n",
    "Delivered: Sun, 10 Mar 2024 00:00:01 +0000\nDate: none\nLong: one\n two\n\n",
    "no field\n",
];

/// The numbers of the messages of which the expression holds.
fn chosen(alloc: Global, expr: &Expr, messages: &[&str; 4]) -> Result<String, AllocError> {
    let mut shown = String::new(alloc);
    for (i, message) in messages.iter().enumerate() {
        if holds(alloc, expr, message.as_bytes())? {
            shown.push_str(&format!(in alloc; "{};", i + 1)?)?;
        }
    }
    Ok(shown)
}

fn answer(alloc: Global, line: &str, messages: &[&str; 4]) -> Result<String, AllocError> {
    let Some(items) = items(alloc, line)? else {
        return String::from_str(alloc, "no words");
    };
    match read_expr(alloc, &items, NOW, 0) {
        Ok(expr) => chosen(alloc, &expr, messages),
        Err(ExprFault::BadExpr(place)) => format!(in alloc; "bad {place}"),
        Err(ExprFault::BadDate(place)) => format!(in alloc; "date {place}"),
        Err(ExprFault::Memory) => Err(AllocError),
    }
}

/// The wrong ones of rows that each have a command line and, behind an equals sign, what it gives.
fn wrong_rows(alloc: Global, rows: &str, messages: &[&str; 4]) -> Result<String, AllocError> {
    let mut wrong = String::new(alloc);
    for row in rows.lines() {
        let (line, wanted) = row.split_once(" = ").unwrap_or((row, "no row"));
        let found = answer(alloc, line, messages)?;
        if found.as_str() != wanted {
            wrong.push_str(&format!(in alloc; "{row}: {}\n", found.as_str())?)?;
        }
    }
    Ok(wrong)
}

const JOINED: &str = "-from A -or -not -subject b = 1;3;
-subject zzz = 
 = 1;2;3;4;
+inbox 3 -list -sequence picked = 1;2;3;4;
-from A = 1;
-from a = 1;2;3;4;
-from a -subject b = 1;2;4;
-from a -and -subject b = 1;2;4;
-from A -or -subject x -and -from n = 1;3;
-lbrace -from A -or -subject x -rbrace -and -subject x = 3;
-subject x -and -from A -or -subject B = 4;
-subject B -or -subject x -subject zzz = 4;
-subject B -or -subject x -or -subject big = 1;3;4;
-not -from A -subject x = 3;
-not -lbrace -from A -or -subject x -rbrace = 2;4;
-not -not -from A = 1;
-not -from A -or -from A = 1;2;3;4;
-not -subject x -and -not -from A = 2;4;
-subject x -not -from A = 3;
-lbrace -subject x -rbrace -lbrace -from ann -rbrace = 3;
-lbrace -lbrace -subject x -rbrace -or -from A -rbrace = 1;3;
-lbrace -from A 7 -rbrace -list +other = 1;
";

const REFUSED: &str = "-and = bad 0
-or = bad 0
-rbrace = bad 0
-from A -or = bad 3
-from A -and = bad 3
-not = bad 1
-lbrace = bad 1
-lbrace -from A = bad 3
-lbrace -from A 5 = bad 4
-from A -and --x-seen Yes -or = bad 6
-lbrace -rbrace = bad 1
-from A -rbrace = bad 2
-from A -or -and -from B = bad 3
-from A -not -or = bad 3
-from A -and -or -from [ = bad 3
-from [ -and -or = bad 0
--x-seen [a = bad 0
-from A -search [z-a] -and -and = bad 2
-before someday = date 0
-from A -after = no words
-from A -after 2024-13-01 = date 2
-and -before someday = bad 0
-before someday -and -and = date 0
-not 3 -datefield delivered +inbox = bad 5
";

const TESTS: &str = "-to SECOND = 
-to second = 1;
-to b$ = 1;
-cc other = 2;
-cc ^some = 2;
--X-SEEN yes = 1;
--x-seen Y = 1;
--nothing x = 
-date 2024 = 1;2;
-date 1990 = 2;
-search ^first$ = 1;2;
-search ^last~line$ = 1;
-search ^end$ = 2;
-search ^$ = 2;
-search ^long:~one~two$ = 3;
-search ^x-seen:~yes$ = 1;
-search no~field = 4;
-before today = 1;
-after yesterday = 1;2;
-after 2024-03-08 = 1;2;
-after 2024-03-10 = 
-not -before today = 2;3;4;
-datefield delivered -after 2024-03-10 = 3;
-datefield delivered -after today -or -datefield date -before today = 1;3;
-after 2024-03-08 -datefield delivered = 1;2;
-datefield delivered -datefield to -after 2024-03-08 = 
-search ^to:~a@b$ = 1;
-search ^to:~second$ = 1;
";

#[test]
fn words_are_joined_as_wanted(rt: HostRuntime) -> Result<(), Fail> {
    let alloc = rt.alloc();
    assert_eq!(rt; wrong_rows(alloc, JOINED, &MESSAGES)?.as_str(), "");
    assert_eq!(rt; wrong_rows(alloc, REFUSED, &MESSAGES)?.as_str(), "");
    Ok(())
}

#[test]
fn tests_see_what_they_name(rt: HostRuntime) -> Result<(), Fail> {
    let alloc = rt.alloc();
    assert_eq!(rt; wrong_rows(alloc, TESTS, &MORE)?.as_str(), "");
    Ok(())
}

/// So many words, and what is behind them.
fn repeated(alloc: Global, word: &str, count: usize, back: &str) -> Result<String, AllocError> {
    let mut line = String::new(alloc);
    for _ in 0..count {
        line.push_str(word)?;
        line.push(' ')?;
    }
    line.push_str(back)?;
    Ok(line)
}

/// What so many braces around a test give.
fn in_braces(alloc: Global, count: usize) -> Result<String, AllocError> {
    let closing = repeated(alloc, "-rbrace", count, "-list")?;
    let inner = format!(in alloc; "-from A {}", closing.as_str())?;
    let line = repeated(alloc, "-lbrace", count, inner.as_str())?;
    answer(alloc, line.as_str(), &MESSAGES)
}

fn behind(alloc: Global, word: &str, count: usize, back: &str) -> Result<String, AllocError> {
    let line = repeated(alloc, word, count, back)?;
    answer(alloc, line.as_str(), &MESSAGES)
}

#[test]
fn nesting_is_64_deep_at_most(rt: HostRuntime) -> Result<(), Fail> {
    let alloc = rt.alloc();
    assert_eq!(rt; in_braces(alloc, 64)?.as_str(), "1;");
    assert_eq!(rt; in_braces(alloc, 65)?.as_str(), "bad 64");
    assert_eq!(rt; behind(alloc, "-not", 64, "-from A")?.as_str(), "1;");
    assert_eq!(rt; behind(alloc, "-not", 65, "-from A")?.as_str(), "bad 64");
    assert_eq!(rt;
        behind(alloc, "-not", 63, "-lbrace -from A -rbrace")?.as_str(),
        "2;3;4;"
    );
    assert_eq!(rt;
        behind(alloc, "-not", 64, "-lbrace -from A -rbrace")?.as_str(),
        "bad 64"
    );
    assert_eq!(rt;
        behind(alloc, "-from a -not -from zzz -or", 5000, "-from A")?.as_str(),
        "1;2;3;4;"
    );
    Ok(())
}
