//! Tests of patterns and of expressions that pick messages. There is nothing here but tests.
#![tactic(auto)]

#[cfg(test)]
mod expressions;
#[cfg(test)]
mod patterns;
#[cfg(test)]
mod plain;
