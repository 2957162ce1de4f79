//! Words that name messages, beside a plain body. There is nothing here but tests.
#![tactic(auto)]

#[cfg(test)]
mod plain;
#[cfg(test)]
mod selections;
