//! What calls keep, by their words: the pledge of each command, and the marks of messages. Theorems on their
//! plans.
#![tactic(auto)]
