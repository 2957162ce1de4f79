//! What calls come to, by their words and a mailbox that nothing else changes. Theorems on their plans.
#![tactic(auto)]
