//! The law on commits: a folder's sequences, and the context, are the fold of the commits that count, in lock order.
#![tactic(auto)]

mod laws;

pub use laws::fold_of_commits;
