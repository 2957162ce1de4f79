// Lines of formats. A view has a field `now` of its own, so that in clauses `view.now` is the view.
ghost use Rattle.std.specs.Prelude.{◌≡◌, ◌≤◌, ◌∷◌, List, drop, IfOk, OnOk};
ghost use Rattle.format_compiler.specs.Code.{IsCodeOf};
ghost use Rattle.format_compiler.specs.Grammar.{Format};
ghost use Rattle.format_compiler.specs.declared.instruction.Instruction.{Instruction as InstructionOf};
ghost use Rattle.line_rows.specs.Columns.{IsLongestFit, columns_of};
ghost use Rattle.format_run.specs.Lazy.{meant};
ghost use Rattle.format_run.specs.Meaning.{line_of, written_by};
ghost use Rattle.format_run.specs.Running.{line_by, run as run_of};

use crate::View;
use crate::lazy::LazyState;
use format_compiler::{Instruction, Program};
use mh_base::Text;
use std::alloc::{AllocError, Global};

/// One instruction: how many of those that follow are skipped.
#[tactic(auto, unfolding(crate::specs::Running::run))]
fn step(
    alloc: Global,
    view: &View,
    state: &mut LazyState,
    instruction: &Instruction,
) -> Result<usize, AllocError>
    ensures { IfOk result
        (λ skipped. (code : List InstructionOf)
        → run_of view.now 0 (instruction.now ∷ code) (meant state.old)
        ≡ run_of view.now skipped code (meant state.new)) }
{
    match instruction {
        Instruction::Print(piece) => {
            state.print(alloc, view, piece)?;
            Ok(0)
        }
        Instruction::Unless { test, skipped } => {
            let holds = state.test(alloc, view, test)?;
            Ok(if holds { 0 } else { *skipped })
        }
        Instruction::Skip(skipped) => Ok(*skipped),
    }
}

/// What stands behind so many instructions.
fn behind(code: &[Instruction], skipped: usize) -> &[Instruction]
    ensures { result.now ≡ drop skipped code.now }
{
    let (_, rest) = code.split_at(skipped.min(code.len()));
    rest
}

fn run(
    alloc: Global,
    view: &View,
    state: &mut LazyState,
    code: &[Instruction],
) -> Result<(), AllocError>
    ensures { OnOk result (meant state.new ≡ run_of view.now 0 code.now (meant state.old)) }
{
    let mut rest = code;
    while let Some((instruction, following)) = rest.split_first() {
        let skipped = step(alloc, view, state, instruction)?;
        rest = behind(following, skipped);
    }
    Ok(())
}

/// The line that a format gives for a message, in so many columns at most.
pub fn line(alloc: Global, program: &Program, view: &View, width: u32) -> Result<Text, AllocError>
    ensures meaning { (f : Format) → IsCodeOf program.now f → IfOk result (λ text. text ≡ line_of view.now width f) }
    ensures longest { (f : Format) → IsCodeOf program.now f
        → IfOk result (IsLongestFit width (written_by view.now width f)) }
    ensures run { IfOk result (λ text. text ≡ line_by view.now width program.now) }
    ensures within { IfOk result (λ text. columns_of text ≤ width) }
{
    let mut state = LazyState::new(alloc, width);
    run(alloc, view, &mut state, program.instructions())?;
    Ok(state.into_text())
}
