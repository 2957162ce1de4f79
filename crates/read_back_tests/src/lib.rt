//! Tests that the messages of generated drafts are read back: part by part, what the drafts asked for. There is nothing
//! here but tests.
#![tactic(auto)]

#[cfg(test)]
mod asked;
#[cfg(test)]
mod back;
#[cfg(test)]
mod leaf;
