// Trees of formats, made by chance.
use crate::Part;
use crate::chance::Chance;
use format_compiler::{Argument, Call, Function, Piece, Test, Width};
use mh_base::{List, Text};
use std::alloc::{AllocError, Global};

fn character(chance: &mut Chance) -> char {
    match chance.next() % 12 {
        0 => '%',
        1 => '\\',
        2 => '\n',
        3 => '日',
        4 => '\u{301}',
        5 => '|',
        6 => '{',
        7 => ' ',
        8 => '\u{7f}',
        9 => '5',
        _ => 'x',
    }
}

fn name(alloc: Global, chance: &mut Chance) -> Result<Text, AllocError> {
    let name = match chance.next() % 6 {
        0 => "subject",
        1 => "from",
        2 => "body",
        3 => "date",
        4 => "Replied",
        _ => "none",
    };
    Text::from_str(alloc, name)
}

fn width(chance: &mut Chance) -> Option<Width> {
    let (columns, zeros) = match chance.next() % 5 {
        0 => (1, false),
        1 => (4, true),
        2 => (17, false),
        _ => return None,
    };
    Some(Width { columns, zeros })
}

/// A call of one function that has a result.
fn inner_call(alloc: Global, chance: &mut Chance) -> Result<(Function, Argument), AllocError> {
    Ok(match chance.next() % 16 {
        0 => (Function::Msg, Argument::Nothing),
        1 => (Function::Size, Argument::Nothing),
        2 => (Function::Cur, Argument::Nothing),
        3 => (Function::Unseen, Argument::Nothing),
        4 => (Function::Charleft, Argument::Nothing),
        5 => (Function::Strlen, Argument::Nothing),
        6 => (Function::Num, Argument::Number(-7)),
        7 => (Function::Plus, Argument::Number(1200)),
        8 => (Function::Gt, Argument::Number(2)),
        9 => (
            Function::Lit,
            Argument::Literal(Text::from_str(alloc, " a  日b% ")?),
        ),
        10 => (
            Function::Match,
            Argument::Literal(Text::from_str(alloc, "e")?),
        ),
        11 => (
            Function::Friendly,
            Argument::Component(name(alloc, chance)?),
        ),
        12 => (Function::Mon, Argument::Component(name(alloc, chance)?)),
        13 => (Function::Decode, Argument::Component(name(alloc, chance)?)),
        14 => (Function::Null, Argument::Component(name(alloc, chance)?)),
        _ => (Function::Comp, Argument::Component(name(alloc, chance)?)),
    })
}

/// Up to two functions with results.
fn around(alloc: Global, chance: &mut Chance) -> Result<List<Function>, AllocError> {
    let mut around = List::new(alloc);
    for _ in 0..chance.next() % 3 {
        around.push(match chance.next() % 4 {
            0 => Function::Decode,
            1 => Function::Trim,
            2 => Function::Nonzero,
            _ => Function::Nonnull,
        })?;
    }
    Ok(around)
}

/// A call that has a result.
fn call(alloc: Global, chance: &mut Chance) -> Result<Call, AllocError> {
    let (function, argument) = inner_call(alloc, chance)?;
    Ok(Call {
        function,
        argument,
        around: around(alloc, chance)?,
    })
}

/// A call of which sometimes the outermost function has no result.
fn printed_call(alloc: Global, chance: &mut Chance) -> Result<Call, AllocError> {
    let mut call = call(alloc, chance)?;
    match chance.next() % 8 {
        0 => call.around.push(Function::Putstrf)?,
        1 => call.around.push(Function::Putnumf)?,
        2 => call.around.push(Function::Putlit)?,
        3 => call.around.push(Function::Void)?,
        _ => {}
    }
    Ok(call)
}

fn piece(alloc: Global, chance: &mut Chance) -> Result<Piece, AllocError> {
    Ok(match chance.next() % 4 {
        0 => Piece::Component {
            width: width(chance),
            name: name(alloc, chance)?,
        },
        1 | 2 => Piece::Call {
            width: width(chance),
            call: printed_call(alloc, chance)?,
        },
        _ => Piece::Character(character(chance)),
    })
}

fn test(alloc: Global, chance: &mut Chance) -> Result<Test, AllocError> {
    Ok(if chance.next() % 2 == 0 {
        Test::Component(name(alloc, chance)?)
    } else {
        Test::Call(call(alloc, chance)?)
    })
}

#[cycle(making)]
fn part(alloc: Global, chance: &mut Chance, levels: u32) -> Result<Part, AllocError> {
    if levels == 0 || chance.next() % 3 != 0 {
        return Ok(Part::Print(piece(alloc, chance)?));
    }
    let test = test(alloc, chance)?;
    let taken_count = chance.next() % 4;
    let taken = parts(alloc, chance, levels - 1, taken_count)?;
    let other_count = chance.next() % 3;
    let other = parts(alloc, chance, levels - 1, other_count)?;
    Ok(Part::Choose { test, taken, other })
}

/// So many parts, with conditionals in one another down to so many levels.
#[cycle(making)]
pub fn parts(
    alloc: Global,
    chance: &mut Chance,
    levels: u32,
    count: u32,
) -> Result<Vec<Part>, AllocError> {
    let mut parts = Vec::new(alloc);
    for _ in 0..count {
        parts.push(part(alloc, chance, levels)?)?;
    }
    Ok(parts)
}
