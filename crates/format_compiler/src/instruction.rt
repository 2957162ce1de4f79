// Compiled formats.

use crate::{Piece, Test};

/// An instruction of a compiled format.
#[derive(Drop)]
pub enum Instruction {
    Print(Piece),
    /// Goes on behind so many of the instructions that follow, where the test doesn't hold.
    Unless { test: Test, skipped: usize },
    /// Goes on behind so many of the instructions that follow.
    Skip(usize),
}
