// Patterns worked out by hand.
use crate::plain::matches_plainly;
use mh_base::Text;
use pick_expr::{Pattern, PatternFault};
use std::alloc::{AllocError, Global};
use std::test::Fail;

/// Whether the pattern matches the line, unless it is wrong.
fn matches(alloc: Global, pattern: &str, line: &str) -> Result<Option<bool>, AllocError> {
    match Pattern::read(alloc, &Text::from_str(alloc, pattern)?) {
        Ok(pattern) => Ok(Some(pattern.matches(line.as_bytes()))),
        Err(PatternFault::Bad) => Ok(None),
        Err(PatternFault::Memory) => Err(AllocError),
    }
}

/// Those of the lines, between commas, that the pattern matches, each with a semicolon behind it.
fn matched(alloc: Global, pattern: &str, lines: &str) -> Result<String, AllocError> {
    let mut found = String::new(alloc);
    for line in lines.split(',') {
        match matches(alloc, pattern, line)? {
            Some(true) => found.push_str(&format!(in alloc; "{line};")?)?,
            Some(false) => {}
            None => found.push_str("bad;")?,
        }
    }
    Ok(found)
}

fn is_right(alloc: Global, row: &str) -> Result<bool, AllocError> {
    let mut parts = row.split(' ');
    match (parts.next(), parts.next(), parts.next()) {
        (Some(pattern), Some(lines), Some(wanted)) => {
            Ok(matched(alloc, pattern, lines)?.as_str() == wanted)
        }
        _ => Ok(false),
    }
}

/// The wrong ones of rows that each have a pattern, lines and those of the lines that match.
fn wrong_rows(alloc: Global, rows: &str) -> Result<String, AllocError> {
    let mut wrong = String::new(alloc);
    for row in rows.lines() {
        if !is_right(alloc, row)? {
            wrong.push_str(row)?;
            wrong.push('\n')?;
        }
    }
    Ok(wrong)
}

const PIECES: &str = "bc abcd,bc,b,cb,b-c abcd;bc;
 ,x ;x;
a.c abc,a.c,ac,xa-cx abc;a.c;xa-cx;
é é,è é;
^..$ é,e,ee é;ee;
";

const CASES: &str = "ann ann,ANN,Ann,anm ann;ANN;Ann;
Ann ann,ANN,Ann ANN;Ann;
A a,A A;
\\a a,A a;A;
\\A a,A A;
[aB] a,A,b,B a;A;B;
[^aB] a,A,b,B b;
[a-c] a,B,c,C,d a;c;
[A-C] a,B,c,C,d B;C;
[a-cD] a,A,d,D a;D;
{ [,{ {;
`@ `@,@@,`` `@;
";

const ANCHORS: &str = "^b ba,ab,b ba;b;
b$ ba,ab,b ab;b;
^b$ ba,ab,b b;
^$ ,b ;
^ ,b ;b;
$ ,b ;b;
a^b a^b,ab a^b;
^^ ^,a ^;
a$b a$b,ab,a a$b;
a$$ a$,a,a$b a$;
a\\$ a$,a,a$b a$;a$b;
\\^a ^a,a ^a;
^a*$ ,a,aa,ab ;a;aa;
^x$*$ x,x$,x$$,x$a x;x$;x$$;
";

const STARS: &str = "^ab*c$ ac,abc,abBc,abxc ac;abc;abBc;
^a.*c$ ac,abbc,ab ac;abbc;
^[ab]*c$ c,abbac,abd c;abbac;
^*a$ *a,a,aa *a;
*a *a,a,b*ab *a;b*ab;
^a**$ *,a*,aa*,a,a** *;a*;aa*;
^a***$ **,a**,a*,a*** **;a**;
^**$ *,**, **;
^\\**$ ,*,**,a ;*;**;
^\\a*$ ,a,Aa,b ;a;Aa;
^\\\\*$ ,\\,\\\\,a ;\\;\\\\;
^[*]*$ ,*,**,a ;*;**;
";

const BACKSLASHES: &str = "a\\.b a.b,axb a.b;
\\[a] [a],a [a];
a\\ a\\,a a\\;
\\ a\\,a a\\;
\\\\ \\,a \\;
";

const CLASSES: &str = "^[abc]$ a,b,c,d,ab a;b;c;
^[^abc]$ a,b,c,d,^ d;^;
^[]a]$ ],a,b ];a;
^[^]a]$ ],a,b b;
^[]-a]$ ],^,_,`,a,b,A,[ ];^;_;`;a;
^[a^]$ a,^,b a;^;
^[a-]$ a,-,b a;-;
^[-a]$ a,-,b a;-;
^[a-c-e]$ a,b,c,-,d,e a;b;c;-;e;
^[+--]$ +,-,*,.,/ +;-;
^[a\\]$ a,\\,b a;\\;
^[\\]]$ \\],],\\ \\];
^[.*$]$ .,*,$,a .;*;$;
^[0-9a-f]*$ 0,af09,g,A 0;af09;
^[b-ax]$ a,b,x x;
[ a bad;
[a a bad;
[] a bad;
[^ a bad;
[^] a bad;
[^a a bad;
x[a- a bad;
[z-a] a bad;
[^z-a] a bad;
[b-aB-A] a bad;
";

#[test]
fn rows_match_as_wanted(rt: HostRuntime) -> Result<(), Fail> {
    let alloc = rt.alloc();
    for rows in [PIECES, CASES, ANCHORS, STARS, BACKSLASHES, CLASSES] {
        assert_eq!(rt; wrong_rows(alloc, rows)?.as_str(), "");
    }
    Ok(())
}

/// So many letters between two texts.
fn letters(alloc: Global, front: &str, count: usize, back: &str) -> Result<String, AllocError> {
    let mut text = String::from_str(alloc, front)?;
    for _ in 0..count {
        text.push('a')?;
    }
    text.push_str(back)?;
    Ok(text)
}

/// Whether that pattern matches 127 letters, unless it is wrong.
fn matches_letters(
    alloc: Global,
    front: &str,
    count: usize,
    back: &str,
) -> Result<Option<bool>, AllocError> {
    let line = letters(alloc, "", 127, "")?;
    matches(
        alloc,
        letters(alloc, front, count, back)?.as_str(),
        line.as_str(),
    )
}

#[test]
fn a_pattern_has_127_atoms_at_most(rt: HostRuntime) -> Result<(), Fail> {
    let alloc = rt.alloc();
    assert_eq!(rt; matches_letters(alloc, "", 127, "")?, Some(true));
    assert_eq!(rt; matches_letters(alloc, "^", 127, "*$")?, Some(true));
    assert_eq!(rt; matches_letters(alloc, "", 126, "[ab]")?, Some(true));
    assert_eq!(rt; matches_letters(alloc, "", 126, "b")?, Some(false));
    assert_eq!(rt; matches_letters(alloc, "", 128, "")?, None);
    assert_eq!(rt; matches_letters(alloc, "^", 127, "[ab]$")?, None);
    Ok(())
}

#[test]
fn long_lines_are_passed_once(rt: HostRuntime) -> Result<(), Fail> {
    let alloc = rt.alloc();
    let line = letters(alloc, "", 100_000, "b")?;
    let most = letters(alloc, "", 127, "")?;
    assert_eq!(rt; matches(alloc, "ab$", line.as_str())?, Some(true));
    assert_eq!(rt;
        matches(alloc, "^a*a*a*a*a*a*c", line.as_str())?,
        Some(false)
    );
    assert_eq!(rt; matches(alloc, most.as_str(), line.as_str())?, Some(true));
    Ok(())
}

/// The text of these letters with this number: the shorter ones come first.
fn numbered(alloc: Global, letters: &[char; 8], number: usize) -> Result<Text, AllocError> {
    let mut text = Text::new(alloc);
    let mut left = number;
    for _ in 0..20 {
        if left == 0 {
            break;
        }
        text.push(letters[(left - 1) % 8])?;
        left = (left - 1) / 8;
    }
    Ok(text)
}

/// Whether the pattern matches the same of the first lines both ways.
fn matches_the_same(alloc: Global, pattern: &Pattern, lines: usize) -> Result<bool, AllocError> {
    let letters = ['a', 'A', 'b', 'B', '*', '-', ']', 'z'];
    for line in 0..lines {
        let line = numbered(alloc, &letters, line)?;
        let bytes = line.as_str().as_bytes();
        if pattern.matches(bytes) != matches_plainly(pattern, bytes) {
            return Ok(false);
        }
    }
    Ok(true)
}

/// How many of the first patterns of these letters don't match the same lines both ways, and how many
/// are wrong.
fn differences(
    alloc: Global,
    letters: &[char; 8],
    patterns: usize,
    lines: usize,
) -> Result<(u64, u64), AllocError> {
    let mut different: u64 = 0;
    let mut wrong: u64 = 0;
    for number in 0..patterns {
        match Pattern::read(alloc, &numbered(alloc, letters, number)?) {
            Ok(pattern) => {
                if !matches_the_same(alloc, &pattern, lines)? {
                    different = different.saturating_add(1);
                }
            }
            Err(_) => wrong = wrong.saturating_add(1),
        }
    }
    Ok((different, wrong))
}

#[test]
fn both_ways_match_the_same(rt: HostRuntime) -> Result<(), Fail> {
    let alloc = rt.alloc();
    let atoms = ['a', 'A', 'b', '*', '.', '^', '$', '\\'];
    assert_eq!(rt; differences(alloc, &atoms, 4681, 73)?, (0, 0));
    let classes = ['[', ']', '^', '-', 'a', 'b', 'z', '*'];
    assert_eq!(rt; differences(alloc, &classes, 4681, 9)?.0, 0);
    Ok(())
}
