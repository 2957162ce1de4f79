// Twenty thousand messages, each on a line of the default format, beside reading them from files, and a plain read of
// their bytes.
use crate::message_files::measure_files;
use crate::rates::{micros_since, plain, tell_things};
use format_compiler::{FormatFault, Program, compile};
use format_run::{IndexedMessage, View, line};
use mh_base::{MsgNum, Text};
use std::alloc::{AllocError, Global};
use std::rt::Clock;
use std::test::Fail;
use std::time::Instant;

const COUNT: u32 = 20_000;

const DEFAULT: &[u8] =
    b"%4(msg)%<(cur)+%| %>%<{replied}-%?{encrypted}E%| %>%02(mon{date})/%02(mday{date})%<{date} %|*%>%17(decode(friendly{from}))  %(decode{subject})%<{body}<<%{body}%>";

fn message(alloc: Global, number: u32) -> Result<String, AllocError> {
    format!(in alloc;
        "Received: from a.example by b.example; Tue, 02 Jun 2026 10:00:01 +0000\nFrom: Ann Lee <ann{number}@a.example>\nTo: bob@b.example\nMessage-ID: <{number}@a.example>\nSubject: =?UTF-8?Q?Caf=C3=A9?= on day {number}\nDate: Tue, 02 Jun 2026 10:00:00 +0000\n\nShall we meet at noon, at the place behind the station?\n\nAnn\n"
    )
}

fn messages(alloc: Global) -> Result<Vec<String>, AllocError> {
    let mut all = Vec::new(alloc);
    for number in 0..COUNT {
        all.push(message(alloc, number)?)?;
    }
    Ok(all)
}

fn read(messages: &[String]) -> u64 {
    let mut all: u8 = 0;
    for message in messages {
        all ^= plain(message.as_bytes());
    }
    u64::from(all)
}

fn measure_read(rt: &(impl Print + Clock), messages: &[String]) -> Result<(), Fail> {
    let start = Instant::now(rt)?;
    let all = read(messages);
    let taken = micros_since(rt, start)?;
    tell_things(rt, "messages read", u64::from(COUNT), taken, all)
}

/// How many bytes a message's line has.
fn line_len(
    alloc: Global,
    program: &Program,
    user: &Text,
    message: &[u8],
) -> Result<u64, AllocError> {
    let Some(number) = MsgNum::new(1) else {
        return Ok(0);
    };
    let view = View {
        number,
        current: false,
        unseen: false,
        message: IndexedMessage::cut(alloc, message)?,
        moment: 1_780_394_400,
        user,
    };
    let line = line(alloc, program, &view, 80)?;
    Ok(line.as_str().len() as u64)
}

/// How many bytes the messages' lines have.
fn lines_len(alloc: Global, program: &Program, messages: &[String]) -> Result<u64, AllocError> {
    let user = Text::from_str(alloc, "bob")?;
    let mut all: u64 = 0;
    for message in messages {
        all = all.wrapping_add(line_len(alloc, program, &user, message.as_bytes())?);
    }
    Ok(all)
}

fn measure_lines(
    rt: &(impl Print + Clock),
    alloc: Global,
    program: &Program,
    messages: &[String],
) -> Result<(), Fail> {
    let start = Instant::now(rt)?;
    let all = lines_len(alloc, program, messages)?;
    let taken = micros_since(rt, start)?;
    tell_things(rt, "lines", u64::from(COUNT), taken, all)
}

pub fn measure(rt: &HostRuntime, alloc: Global) -> Result<(), Fail> {
    let messages = messages(alloc)?;
    let program = match compile(alloc, DEFAULT) {
        Ok(program) => program,
        Err(FormatFault::Bad(_)) => return Err("no format".into()),
        Err(FormatFault::Memory) => return Err(AllocError.into()),
    };
    measure_files(rt, alloc, messages.as_slice())?;
    measure_read(rt, messages.as_slice())?;
    measure_lines(rt, alloc, &program, messages.as_slice())
}
