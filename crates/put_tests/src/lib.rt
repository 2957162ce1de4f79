//! Tests of messages that are put into a folder of a mailbox in memory, that get lines, and that change places. There
//! is nothing here but tests.
#![tactic(auto)]

#[cfg(test)]
mod notes;
#[cfg(test)]
mod places;
#[cfg(test)]
mod puts;
#[cfg(test)]
mod rooms;
