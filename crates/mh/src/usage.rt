// The usage lines, and what a shell's completion asks of the switches.
use crate::switches::{Form, Group, Offers, Row, rows_of, switches_of, words_of};
use std::alloc::{AllocError, Global};

/// How wide a line may be.
const WIDTH: usize = 80;

/// A switch and the word behind it.
fn push_switch(text: &mut String, row: &Row) -> Result<(), AllocError> {
    text.push('-')?;
    text.push_str(row.0)?;
    push_value(text, row.1)
}

fn push_value(text: &mut String, value: &str) -> Result<(), AllocError> {
    if value.is_empty() {
        return Ok(());
    }
    text.push(' ')?;
    text.push_str(value)
}

/// The switches with a bar between them.
fn push_switches(text: &mut String, rows: &[Row]) -> Result<(), AllocError> {
    let mut between = "";
    for row in rows {
        text.push_str(between)?;
        push_switch(text, row)?;
        between = " | ";
    }
    Ok(())
}

/// What stands before and behind switches.
fn brackets(form: Form) -> (&'static str, &'static str) {
    match form {
        Form::Maybe => ("[", "]"),
        Form::Many => ("[", "].."),
        Form::Must | Form::Within => ("", ""),
    }
}

/// The piece of the usage line that these switches are.
fn piece(alloc: Global, group: &Group) -> Result<String, AllocError> {
    let (before, behind) = brackets(group.0);
    let mut text = String::from_str(alloc, before)?;
    push_switches(&mut text, group.1)?;
    text.push_str(behind)?;
    Ok(text)
}

/// The pieces of the usage line behind the command.
fn pieces(alloc: Global, command: &str) -> Result<Vec<String>, AllocError> {
    let mut all = Vec::new(alloc);
    for word in words_of(command) {
        all.push(String::from_str(alloc, word)?)?;
    }
    for group in switches_of(command).unwrap_or(&[]) {
        if group.0 != Form::Within {
            all.push(piece(alloc, group)?)?;
        }
    }
    Ok(all)
}

/// A new line, as far to the right as the first piece of the first one.
fn push_indent(text: &mut String, column: usize) -> Result<(), AllocError> {
    text.push('\n')?;
    for _ in 1..column {
        text.push(' ')?;
    }
    Ok(())
}

/// The pieces in lines that are not too wide, behind what is there.
fn push_pieces(text: &mut String, pieces: &[String]) -> Result<(), AllocError> {
    let first = text.len().saturating_add(1);
    let mut column = text.len();
    for piece in pieces {
        if column.saturating_add(piece.len()) >= WIDTH {
            push_indent(text, first)?;
            column = first.saturating_sub(1);
        }
        text.push(' ')?;
        text.push_str(piece.as_str())?;
        column = column.saturating_add(piece.len()).saturating_add(1);
    }
    Ok(())
}

/// How a command is called.
pub fn usage(alloc: Global, command: &str) -> Result<String, AllocError> {
    if command == "mhbuild" {
        return String::from_str(alloc, "usage: mh mhbuild NAME\n       mh mhbuild -\n");
    }
    let mut text = String::from_str(alloc, "usage: mh ")?;
    text.push_str(command)?;
    push_pieces(&mut text, &pieces(alloc, command)?)?;
    text.push('\n')?;
    Ok(text)
}

/// What a shell offers behind a switch.
fn offered(offers: Offers) -> &'static str {
    match offers {
        Offers::NoWord => "",
        Offers::Nothing => "nothing",
        Offers::Files => "files",
        Offers::Folders => "folders",
        Offers::Sequences => "sequences",
        Offers::Words(words) => words,
    }
}

/// A line for each switch of a command, with what a shell offers behind it.
pub fn offers(alloc: Global, command: &str) -> Result<String, AllocError> {
    let mut text = String::new(alloc);
    for row in rows_of(alloc, command)? {
        text.push('-')?;
        text.push_str(row.0)?;
        push_value(&mut text, offered(row.2))?;
        text.push('\n')?;
    }
    Ok(text)
}
