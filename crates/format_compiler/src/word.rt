// The words of formats.

use crate::{Piece, Test};

/// A word of a format: what is printed, or a mark of a conditional together with its test.
#[derive(Drop)]
pub enum Word {
    /// A comment, or a line's end that a backslash takes away.
    Nothing,
    Print(Piece),
    /// `%<` and a test.
    If(Test),
    /// `%?` and a test.
    ElseIf(Test),
    /// `%|`.
    Else,
    /// `%>`.
    End,
}
