//! The plans by which a folder is begun, marked and let go, and what is proved of these.
#![tactic(auto)]
