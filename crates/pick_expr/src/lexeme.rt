// The words of expressions.

use crate::Test;

/// A word of an expression.
#[derive(Drop)]
pub enum Lexeme {
    And,
    Or,
    Not,
    Open,
    Close,
    Test(Test),
}
