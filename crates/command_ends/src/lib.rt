//! What shows how calls end, by their words: each refusal and fault, and what was told. Theorems on their
//! plans.
#![tactic(auto)]
