//! Formats of lines about messages, compiled.
#![tactic(auto)]

mod argument;
mod arguments;
mod call;
mod calls;
mod compiling;
mod components;
mod conditionals;
mod fault;
mod front;
mod function;
mod instruction;
mod linking;
mod literals;
mod named;
mod numbers;
mod one_test;
mod piece;
mod program;
mod reading;
mod stack;
mod stop;
mod width;
mod widths;
mod word;
mod words;

pub use argument::Argument;
pub use call::Call;
pub use compiling::compile;
pub use fault::FormatFault;
pub use function::{ArgumentKind, FUNCTIONS, Function};
pub use instruction::Instruction;
pub use one_test::Test;
pub use piece::Piece;
pub use program::Program;
pub use width::Width;
pub use word::Word;
