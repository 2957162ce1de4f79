// Lines of compiled formats beside lines of their trees.
use crate::chance::Chance;
use crate::trees::parts;
use crate::writing::write_parts;
use crate::{Part, plain_line};
use format_compiler::{FormatFault, Program, compile};
use format_run::{IndexedMessage, View, line};
use mh_base::{MsgNum, Text};
use std::alloc::{AllocError, Global};
use std::test::Fail;

const LUNCH: &[u8] = b"From: Ann Lee <ann@a.example>
To: bob@b.example
Subject: Lunch
Date: Tue, 02 Jun 2026 10:00:00 +0000

At noon?
";

const JAPANESE: &[u8] =
    b"From: cy@c.example (Cy Dee)\nSubject:  =?UTF-8?B?5pel5pys6Kqe5pel5pys6Kqe?= \nReplied: yes\n\n";

const ODD: &[u8] =
    b"Subject: x\xff\xe3\x81y\n\tz\nDate: soon\nSubject: second\n\n\n one\r\n\n two \n";

/// What was found of formats.
#[derive(Drop)]
struct Found {
    lines: u64,
    /// How often the two lines of a format were not the same.
    different: u64,
    /// How many formats weren't compiled.
    refused: u64,
    /// The lines that no earlier one was the same as.
    new: Vec<Text>,
}

impl Found {
    fn has(&self, line: &Text) -> bool {
        self.new.iter().any(|known| known.same(line))
    }

    fn add(&mut self, line: Text, plain: &Text) -> Result<(), AllocError> {
        self.lines = self.lines.saturating_add(1);
        if !line.same(plain) {
            self.different = self.different.saturating_add(1);
        }
        if !self.has(&line) {
            self.new.push(line)?;
        }
        Ok(())
    }
}

/// Both lines of a format, for a message.
fn compare_lines(
    alloc: Global,
    found: &mut Found,
    program: &Program,
    parts: &[Part],
    view: &View,
) -> Result<(), AllocError> {
    for width in [11, 80] {
        let line = line(alloc, program, view, width)?;
        let plain = plain_line(alloc, parts, view, width)?;
        found.add(line, &plain)?;
    }
    Ok(())
}

fn compare_messages(
    alloc: Global,
    found: &mut Found,
    program: &Program,
    parts: &[Part],
    user: &Text,
) -> Result<(), AllocError> {
    for (number, message) in [(1, LUNCH), (23, JAPANESE), (456, ODD)] {
        let Some(number) = MsgNum::new(number) else {
            return Ok(());
        };
        let view = View {
            number,
            current: number.get() == 23,
            unseen: number.get() == 456,
            message: IndexedMessage::cut(alloc, message)?,
            moment: 1_780_394_400,
            user,
        };
        compare_lines(alloc, found, program, parts, &view)?;
    }
    Ok(())
}

fn compare_format(
    alloc: Global,
    found: &mut Found,
    parts: &[Part],
    user: &Text,
) -> Result<(), AllocError> {
    let mut text = String::new(alloc);
    write_parts(alloc, &mut text, parts)?;
    match compile(alloc, text.as_bytes()) {
        Ok(program) => compare_messages(alloc, found, &program, parts, user),
        Err(FormatFault::Bad(_)) => {
            found.refused = found.refused.saturating_add(1);
            Ok(())
        }
        Err(FormatFault::Memory) => Err(AllocError),
    }
}

fn compare_formats(alloc: Global, formats: u32) -> Result<Found, AllocError> {
    let mut found = Found {
        lines: 0,
        different: 0,
        refused: 0,
        new: Vec::new(alloc),
    };
    let mut chance = Chance::of(1);
    let user = Text::from_str(alloc, "bob")?;
    for _ in 0..formats {
        let count = 1 + chance.next() % 6;
        let parts = parts(alloc, &mut chance, 3, count)?;
        compare_format(alloc, &mut found, parts.as_slice(), &user)?;
    }
    Ok(found)
}

#[test]
fn both_lines_are_the_same(rt: HostRuntime) -> Result<(), Fail> {
    let found = compare_formats(rt.alloc(), 400)?;
    assert_eq!(rt; (found.lines, found.different, found.refused), (2400, 0, 0));
    assert!(rt; found.new.len() > 700, "{}", found.new.len());
    Ok(())
}
