// Formats as trees.

use format_compiler::{Piece, Test};

/// A part of a format: what it prints, or a conditional with the parts that count where its test holds and those that
/// count where it doesn't.
#[derive(Drop)]
pub enum Part {
    Print(Piece),
    Choose {
        test: Test,
        taken: Vec<Part>,
        other: Vec<Part>,
    },
}
