// Trees of formats, written as formats.
use crate::Part;
use format_compiler::{Argument, Call, Piece, Test, Width};
use std::alloc::{AllocError, Global};

fn write_character(text: &mut String, c: char) -> Result<(), AllocError> {
    match c {
        '%' => text.push_str("%%"),
        '\\' => text.push_str("\\\\"),
        '\n' => text.push_str("\\n"),
        _ => text.push(c),
    }
}

fn write_width(alloc: Global, text: &mut String, width: Option<Width>) -> Result<(), AllocError> {
    match width {
        None => Ok(()),
        Some(Width { columns, zeros }) => {
            let zero = if zeros { "0" } else { "" };
            text.push_str(format!(in alloc; "{zero}{columns}")?.as_str())
        }
    }
}

fn write_component(text: &mut String, name: &str) -> Result<(), AllocError> {
    text.push('{')?;
    text.push_str(name)?;
    text.push('}')
}

fn write_argument(alloc: Global, text: &mut String, argument: &Argument) -> Result<(), AllocError> {
    match argument {
        Argument::Nothing => Ok(()),
        Argument::Literal(literal) => {
            text.push(' ')?;
            text.push_str(literal.as_str())
        }
        Argument::Number(number) => text.push_str(format!(in alloc; " {number}")?.as_str()),
        Argument::Component(name) => write_component(text, name.as_str()),
    }
}

/// A call: the outermost function comes first.
fn write_call(alloc: Global, text: &mut String, call: &Call) -> Result<(), AllocError> {
    for function in call.around.as_slice().iter().rev() {
        text.push('(')?;
        text.push_str(function.name())?;
    }
    text.push('(')?;
    text.push_str(call.function.name())?;
    write_argument(alloc, text, &call.argument)?;
    for _ in call.around.as_slice() {
        text.push(')')?;
    }
    text.push(')')
}

fn write_piece(alloc: Global, text: &mut String, piece: &Piece) -> Result<(), AllocError> {
    match piece {
        Piece::Character(c) => write_character(text, *c),
        Piece::Component { width, name } => {
            text.push('%')?;
            write_width(alloc, text, *width)?;
            write_component(text, name.as_str())
        }
        Piece::Call { width, call } => {
            text.push('%')?;
            write_width(alloc, text, *width)?;
            write_call(alloc, text, call)
        }
    }
}

fn write_test(alloc: Global, text: &mut String, test: &Test) -> Result<(), AllocError> {
    match test {
        Test::Component(name) => write_component(text, name.as_str()),
        Test::Call(call) => write_call(alloc, text, call),
    }
}

/// What counts where a test doesn't hold, and the end: a conditional alone stands behind `%?`.
#[cycle(writing)]
fn write_other(alloc: Global, text: &mut String, other: &[Part]) -> Result<(), AllocError> {
    match other {
        [] => text.push_str("%>"),
        [
            Part::Choose {
                test,
                taken,
                other: last,
            },
        ] => {
            text.push_str("%?")?;
            write_test(alloc, text, test)?;
            write_parts(alloc, text, taken)?;
            write_other(alloc, text, last)
        }
        _ => {
            text.push_str("%|")?;
            write_parts(alloc, text, other)?;
            text.push_str("%>")
        }
    }
}

#[cycle(writing)]
fn write_part(alloc: Global, text: &mut String, part: &Part) -> Result<(), AllocError> {
    match part {
        Part::Print(piece) => write_piece(alloc, text, piece),
        Part::Choose { test, taken, other } => {
            text.push_str("%<")?;
            write_test(alloc, text, test)?;
            write_parts(alloc, text, taken)?;
            write_other(alloc, text, other)
        }
    }
}

#[cycle(writing)]
pub fn write_parts(alloc: Global, text: &mut String, parts: &[Part]) -> Result<(), AllocError> {
    for part in parts {
        write_part(alloc, text, part)?;
    }
    Ok(())
}
