// Lines, printed from one part of a format's tree to the next.
ghost use Rattle.std.specs.Prelude.{◌≡◌, IfOk, OnOk};
ghost use Rattle.format_run.specs.Meaning.{line_of};
ghost use Rattle.plain_lines.specs.Doing.{done};
ghost use Rattle.plain_lines.specs.Trees.{format_of, part_before};
ghost use Rattle.format_compiler.specs.Grammar.Format.{Done};

use crate::Part;
use format_run::{LineState, View};
use mh_base::Text;
use std::alloc::{AllocError, Global};

#[cycle(printing)]
fn print_part(
    alloc: Global,
    view: &View,
    state: &mut LineState,
    part: &Part,
) -> Result<(), AllocError>
    ensures { OnOk result (state.new ≡ done view.now (part_before part.now Done) state.old) }
{
    match part {
        Part::Print(piece) => state.print(alloc, view, piece),
        Part::Choose { test, taken, other } => {
            if state.test(alloc, view, test)? {
                print_parts(alloc, view, state, taken)
            } else {
                print_parts(alloc, view, state, other)
            }
        }
    }
}

#[cycle(printing)]
fn print_parts(
    alloc: Global,
    view: &View,
    state: &mut LineState,
    parts: &[Part],
) -> Result<(), AllocError>
    ensures { OnOk result (state.new ≡ done view.now (format_of parts.now) state.old) }
{
    for part in parts {
        print_part(alloc, view, state, part)?;
    }
    Ok(())
}

/// The line that a format of these parts gives for a message, in so many columns at most.
pub fn plain_line(
    alloc: Global,
    parts: &[Part],
    view: &View,
    width: u32,
) -> Result<Text, AllocError>
    ensures { IfOk result (λ text. text ≡ line_of view.now width (format_of parts.now)) }
{
    let mut state = LineState::new(alloc, width);
    print_parts(alloc, view, &mut state, parts)?;
    Ok(state.into_text())
}
