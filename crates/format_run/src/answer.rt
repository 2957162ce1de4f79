// What functions answer.

use format_compiler::Width;
use mh_base::Text;

/// What a function answers: its result, or what it prints.
#[derive(Drop)]
pub(crate) enum Answer {
    Number(i64),
    Text(Text),
    PrintText(Option<Width>),
    PrintNumber(Option<Width>),
    /// The text as it is.
    PrintAll,
    Nothing,
}

/// Of what kind a call's result is, which stands in the state.
#[derive(Clone, Copy)]
pub(crate) enum Outcome {
    Number,
    Text,
    Nothing,
}
