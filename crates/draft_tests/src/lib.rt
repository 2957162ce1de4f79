//! Tests of drafts and of the messages that they become. There is nothing here but tests.
#![tactic(auto)]

#[cfg(test)]
mod drafts;
#[cfg(test)]
mod given;
#[cfg(test)]
mod messages;
