//! Expressions that pick messages: patterns of text, and tests joined by `and`, `or` and `not`.
#![tactic(auto)]

mod atom;
mod byte_set;
mod class;
mod element;
mod elements;
mod evaluation;
mod expr;
mod fault;
mod finding;
mod frame;
mod halves;
mod lexeme;
mod lines;
mod masks;
mod matching;
mod member;
mod one_test;
mod pattern;
mod places;
mod resting;
mod shortened;
mod sign;
mod spot;
mod stack;
mod switches;
mod truth;

pub use atom::Atom;
pub use byte_set::ByteSet;
pub use element::Element;
pub use expr::{Expr, read_expr};
pub use fault::{ExprFault, PatternFault};
pub use lexeme::Lexeme;
pub use member::Member;
pub use one_test::Test;
pub use pattern::Pattern;
pub use sign::Sign;
pub use switches::{PickSwitch, SWITCHES};
pub use truth::holds;
