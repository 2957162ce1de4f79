// Formats, and the instructions that they give.
use format_compiler::{
    Argument, Call, FUNCTIONS, FormatFault, Instruction, Piece, Program, Test, Width, compile,
};
use mh_base::Bytes;
use row_text::{from, number, show_line, text, word};
use std::alloc::{AllocError, Global};
use std::test::Fail;

fn argument(alloc: Global, argument: &Argument) -> Result<String, AllocError> {
    match argument {
        Argument::Nothing => Ok(String::new(alloc)),
        Argument::Literal(text) => format!(in alloc; " [{}]", text.as_str()),
        Argument::Number(number) => format!(in alloc; " {number}"),
        Argument::Component(name) => format!(in alloc; " {{{}}}", name.as_str()),
    }
}

fn call_text(alloc: Global, call: &Call) -> Result<String, AllocError> {
    let argument = argument(alloc, &call.argument)?;
    let mut shown = format!(in alloc; "({}{}", call.function.name(), argument.as_str())?;
    for function in call.around.as_slice() {
        shown.push(' ')?;
        shown.push_str(function.name())?;
    }
    shown.push(')')?;
    Ok(shown)
}

fn width(alloc: Global, width: &Option<Width>) -> Result<String, AllocError> {
    match width {
        Some(width) if width.zeros => format!(in alloc; "0{}", width.columns),
        Some(width) => format!(in alloc; "{}", width.columns),
        None => Ok(String::new(alloc)),
    }
}

fn component(alloc: Global, columns: &Option<Width>, name: &str) -> Result<String, AllocError> {
    let columns = width(alloc, columns)?;
    format!(in alloc; "{}{{{name}}}", columns.as_str())
}

fn printed_call(
    alloc: Global,
    columns: &Option<Width>,
    printed: &Call,
) -> Result<String, AllocError> {
    let columns = width(alloc, columns)?;
    let printed = call_text(alloc, printed)?;
    format!(in alloc; "{}{}", columns.as_str(), printed.as_str())
}

fn character(alloc: Global, c: char) -> Result<String, AllocError> {
    if c < ' ' {
        format!(in alloc; "#{}", c as u32)
    } else {
        format!(in alloc; "'{c}'")
    }
}

fn piece(alloc: Global, piece: &Piece) -> Result<String, AllocError> {
    match piece {
        Piece::Character(c) => character(alloc, *c),
        Piece::Component { width, name } => component(alloc, width, name.as_str()),
        Piece::Call { width, call } => printed_call(alloc, width, call),
    }
}

fn test(alloc: Global, test: &Test) -> Result<String, AllocError> {
    match test {
        Test::Component(name) => format!(in alloc; "{{{}}}", name.as_str()),
        Test::Call(tested) => call_text(alloc, tested),
    }
}

fn unless(alloc: Global, tested: &Test, skipped: usize) -> Result<String, AllocError> {
    let tested = test(alloc, tested)?;
    format!(in alloc; "?{}:{skipped}", tested.as_str())
}

fn instruction(alloc: Global, instruction: &Instruction) -> Result<String, AllocError> {
    match instruction {
        Instruction::Print(printed) => piece(alloc, printed),
        Instruction::Unless { test, skipped } => unless(alloc, test, *skipped),
        Instruction::Skip(count) => format!(in alloc; ">{count}"),
    }
}

fn program(alloc: Global, program: &Program) -> Result<String, AllocError> {
    let mut shown = String::new(alloc);
    for one in program.instructions() {
        if !shown.is_empty() {
            shown.push(' ')?;
        }
        let one = instruction(alloc, one)?;
        shown.push_str(one.as_str())?;
    }
    Ok(shown)
}

/// The instructions of a format, or where it is wrong.
fn compiled(alloc: Global, text: &[u8]) -> Result<String, AllocError> {
    match compile(alloc, text) {
        Ok(compiled) => program(alloc, &compiled),
        Err(FormatFault::Bad(at)) => format!(in alloc; "bad {at}"),
        Err(FormatFault::Memory) => Err(AllocError),
    }
}

fn show_compiled(alloc: Global, texts: &[Bytes], told: &mut Bytes) -> Result<(), Fail> {
    for text in texts {
        show_line(told, compiled(alloc, text.as_slice())?.as_str())?;
    }
    Ok(())
}

/// How many instructions a format has, or where it is wrong.
fn counted(alloc: Global, text: &str) -> Result<String, AllocError> {
    match compile(alloc, text.as_bytes()) {
        Ok(compiled) => format!(in alloc; "{}", compiled.instructions().len()),
        Err(FormatFault::Bad(at)) => format!(in alloc; "bad {at}"),
        Err(FormatFault::Memory) => Err(AllocError),
    }
}

fn put_times(shown: &mut String, piece: &str, count: u64) -> Result<(), AllocError> {
    for _ in 0..count {
        shown.push_str(piece)?;
    }
    Ok(())
}

/// Numbers, each with a text that comes so many times.
fn show_counted(alloc: Global, words: &[Bytes], told: &mut Bytes) -> Result<(), Fail> {
    let mut format = String::new(alloc);
    for piece in words.chunks(2) {
        let count = number(word(piece, 0)?)?;
        put_times(&mut format, text(word(piece, 1)?)?, count)?;
    }
    show_line(told, counted(alloc, format.as_str())?.as_str())
}

fn has_no_result(alloc: Global, name: &str) -> Result<bool, AllocError> {
    let format = format!(in alloc; "%<({name}{{a}})%>")?;
    Ok(compiled(alloc, format.as_bytes())?.as_str() == "bad 3")
}

/// The functions that are no test, though one with a component or nothing could be.
fn without_result(alloc: Global, told: &mut Bytes) -> Result<(), Fail> {
    for function in FUNCTIONS {
        if has_no_result(alloc, function.name())? {
            told.extend(function.name().as_bytes())?;
            told.extend(b" ")?;
        }
    }
    show_line(told, "and no more")
}

pub(crate) fn call(alloc: Global, words: &[Bytes], told: &mut Bytes) -> Result<(), Fail> {
    match word(words, 1)? {
        b"compile" => show_compiled(alloc, from(words, 2), told),
        b"count" => show_counted(alloc, from(words, 2), told),
        b"without-result" => without_result(alloc, told),
        _ => Err("a call of formats".into()),
    }
}
