//! Tests of the words of commands. There is nothing here but tests.
#![tactic(auto)]

#[cfg(test)]
mod given;
#[cfg(test)]
mod inc;
#[cfg(test)]
mod listing;
#[cfg(test)]
mod mark;
#[cfg(test)]
mod scan;
#[cfg(test)]
mod wanted;
