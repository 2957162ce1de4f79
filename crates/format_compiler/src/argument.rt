// Arguments.

use mh_base::Text;

/// What a function is given that is no other function's result.
#[derive(Drop)]
pub enum Argument {
    Nothing,
    /// Characters as they are written.
    Literal(Text),
    Number(i64),
    /// The name of a component.
    Component(Text),
}
