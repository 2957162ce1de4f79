//! Tests that cross crates. There is nothing here but tests.
#![tactic(auto)]

#[cfg(test)]
mod careful;
#[cfg(test)]
mod disk;
#[cfg(test)]
mod mail;
#[cfg(test)]
mod odd;
#[cfg(test)]
mod values;
